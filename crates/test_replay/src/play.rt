// The calls: each is put to the module, with buffers for the largest map of the list. It agrees where it returns the
// listed number, 0 or that of a refusal, and after an answer where every field is the listed one.
use std::alloc::{AllocError, Global};
use test_cases::{Board, Buffers};

// The counts, angles and rows of the largest map of the list, and the words of its sums and of a level buffer.
const COUNTS: usize = 1440;

const ANGLES: usize = 17856;

const ROWS: usize = 90;

const SUMS: usize = 1525;

const BLOCKS: usize = 1440;

// What is known between two lines: the map that they have set, and the ledger. Each call is lent the buffers as
// the last one left them: its answer does not depend on what stands in them.
#[derive(Drop)]
pub struct Replay {
    pub board: Board,
    ledger: Vec<u64>,
    buffers: Buffers,
}

fn found_agrees(line: &[u64], words: &[u64; 10], tolerance: f64) -> bool {
    test_lines::bits_of(tolerance) == test_lines::word_at(line, 10)
        && test_lines::differing(words, 0, line, 2, 8) == 0
}

// The 25 numbers of a smallest radius, in the order in which a line has them.
fn in_order(w: &[u64; 19], f: &[f64; 6]) -> [u64; 25] {
    [
        w[0],
        w[1],
        w[2],
        w[3],
        test_lines::bits_of(f[0]),
        test_lines::bits_of(f[1]),
        test_lines::bits_of(f[2]),
        test_lines::bits_of(f[3]),
        w[4],
        w[5],
        w[6],
        w[7],
        test_lines::bits_of(f[4]),
        w[8],
        w[9],
        w[10],
        w[11],
        test_lines::bits_of(f[5]),
        w[12],
        w[13],
        w[14],
        w[15],
        w[16],
        w[17],
        w[18],
    ]
}

impl Replay {
    pub(crate) fn new(alloc: Global) -> Result<Replay, AllocError> {
        let map = test_cases::none(SUMS, BLOCKS, BLOCKS);
        let board = Board::new(alloc, map, COUNTS, ANGLES, ROWS)?;
        let ledger = vec![in alloc; 0u64; test_cases::LEDGER_WORDS]?;
        let buffers = Buffers::new(alloc, 0, SUMS, BLOCKS)?;
        Ok(Replay {
            board,
            ledger,
            buffers,
        })
    }

    // P: km, cell; population.
    fn circle(&mut self, line: &[u64], listed: u32) -> bool {
        let mut population: u64 = 0;
        let sums = self.buffers.sums.as_mut_slice();
        let number = test_cases::circle(&self.board, line, sums, &mut population);
        if number != 0 {
            return number == listed;
        }
        listed == 0 && population == test_lines::word_at(line, 3)
    }

    // S: km; the automatic spacing.
    fn spacing(&self, line: &[u64]) -> bool {
        let km = f64::from(test_lines::short_at(line, 0));
        u64::from(spacing::initial_spacing(self.board.map.grid, km)) == test_lines::word_at(line, 1)
    }

    // M: spacing, 0 for the automatic one, km; centre, counts, tolerance.
    fn search(&mut self, line: &[u64], listed: u32) -> bool {
        let mut words = [0u64; 10];
        let mut tolerance = 0.0;
        let side = test_lines::short_at(line, 0);
        let number = test_cases::search(
            &self.board,
            test_lines::short_at(line, 1),
            side == 0,
            side,
            &mut self.buffers.sums,
            &mut self.buffers.current,
            &mut self.buffers.following,
            &mut words,
            &mut tolerance,
        );
        if number != 0 {
            return number == listed;
        }
        listed == 0 && found_agrees(line, &words, tolerance)
    }

    // R: spacing, 0 for the automatic one, share; then the answer.
    fn smallest(&mut self, line: &[u64], listed: u32) -> bool {
        let mut words = [0u64; 19];
        let mut floats = [0.0f64; 6];
        let side = test_lines::short_at(line, 0);
        let number = test_cases::smallest(
            &self.board,
            test_lines::float_at(line, 1),
            side == 0,
            side,
            &mut self.ledger,
            &mut self.buffers.sums,
            &mut self.buffers.current,
            &mut self.buffers.following,
            &mut words,
            &mut floats,
        );
        if number != 0 {
            return number == listed;
        }
        let answer = in_order(&words, &floats);
        listed == 0 && test_lines::differing(&answer, 0, line, 2, 25) == 0
    }

    // Q: the number by which a circle, a search and a smallest radius are refused, whatever they ask.
    fn refused(&mut self, line: &[u64]) -> bool {
        let listed = test_lines::short_at(line, 0);
        self.smallest(line, listed) && self.circle(line, listed) && self.search(line, listed)
    }

    // L sets the ledger; E: the ledger after the last smallest radius. A line that only sets the map agrees.
    pub(crate) fn agrees(&mut self, tag: u8, line: &[u64]) -> bool {
        match tag {
            b'L' => {
                test_lines::copy(line, &mut self.ledger, 0);
                true
            }
            b'R' => self.smallest(line, 0),
            b'Q' => self.refused(line),
            b'P' => self.circle(line, 0),
            b'S' => self.spacing(line),
            b'M' => self.search(line, 0),
            b'E' => test_lines::differing(&self.ledger, 0, line, 0, line.len()) == 0,
            _ => true,
        }
    }
}
