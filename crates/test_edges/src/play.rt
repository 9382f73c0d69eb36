// The calls, each with buffers that are full of sevens.
use crate::ledgers::{self, Words};
use crate::{judge, print, puts};
use std::io;
use test_cases::{Board, Buffers, Map};

// What the lines set: the map and its arrays, and the ledger.
#[derive(Drop)]
pub struct Game {
    pub board: Board,
    pub ledger: Words,
}

fn sevens<R: AllocGlobal>(rt: &R) -> io::Result<Buffers> {
    Ok(Buffers::new(rt.alloc(), print::BEFORE, print::BUFFER, print::BUFFER)?)
}

// P: km, row, col.
fn circle(rt: &impl Print, line: &[u64], board: &Board) -> io::Result<()> {
    let mut sums = [print::BEFORE; print::BUFFER];
    let mut population: u64 = 0;
    let refusal = test_cases::circle(board, line, &mut sums, &mut population);
    print::answer(rt, refusal, &[population], &sums, board.map.filled)?;
    println!(rt)
}

// The answer's words, and what has changed in the buffers.
fn found(
    rt: &impl Print,
    refusal: u32,
    words: &[u64],
    map: Map,
    buffers: &Buffers,
) -> io::Result<()> {
    print::answer(rt, refusal, words, &buffers.sums, map.filled)?;
    print::changed(rt, refusal, &buffers.current, map.current)?;
    print::changed(rt, refusal, &buffers.following, map.following)
}

// M: km, whether the spacing is automatic, spacing.
fn search<R: Print + AllocGlobal>(rt: &R, line: &[u64], board: &Board) -> io::Result<()> {
    let mut buffers = sevens(rt)?;
    let mut words = [0u64; 10];
    let mut tolerance = 0.0;
    let refusal = test_cases::search(
        board,
        test_lines::short_at(line, 0),
        test_lines::word_at(line, 1) == 1,
        test_lines::short_at(line, 2),
        &mut buffers.sums,
        &mut buffers.current,
        &mut buffers.following,
        &mut words,
        &mut tolerance,
    );
    found(rt, refusal, &words, board.map, &buffers)?;
    println!(rt)
}

// R: what is owed, share, whether the spacing is automatic, spacing. T: the same, and the ledger stays as it is left. Of the
// answer's words those before the work of the searches are printed.
fn smallest<R: Print + AllocGlobal>(
    rt: &R,
    line: &[u64],
    board: &Board,
    after: &mut Words,
) -> io::Result<u32> {
    let mut buffers = sevens(rt)?;
    let mut words = [0u64; 19];
    let mut floats = [0.0f64; 6];
    let refusal = test_cases::smallest(
        board,
        test_lines::float_at(line, 3),
        test_lines::word_at(line, 4) == 1,
        test_lines::short_at(line, 5),
        after,
        &mut buffers.sums,
        &mut buffers.current,
        &mut buffers.following,
        &mut words,
        &mut floats,
    );
    found(rt, refusal, &words[..14], board.map, &buffers)?;
    Ok(refusal)
}

impl Game {
    fn smallest<R: Print + AllocGlobal>(
        &mut self,
        rt: &R,
        line: &[u64],
        stays: bool,
    ) -> io::Result<()> {
        let mut after = self.ledger;
        let refusal = smallest(rt, line, &self.board, &mut after)?;
        let strays = ledgers::strayed(refusal, line, &self.ledger, &after);
        print::entries(rt, strays, &after)?;
        println!(rt)?;
        if stays {
            self.ledger = after;
        }
        Ok(())
    }

    // N: how much of each array is lent, and the words of the sums that an answer fills.
    fn lend(&mut self, line: &[u64]) {
        let map = &mut self.board.map;
        map.counts = test_lines::size_at(line, 0);
        map.angles = test_lines::size_at(line, 1);
        map.cosines = test_lines::size_at(line, 2);
        map.sums = test_lines::size_at(line, 3);
        map.current = test_lines::size_at(line, 4);
        map.following = test_lines::size_at(line, 5);
        map.filled = test_lines::size_at(line, 6);
    }

    // Plays a call, or sets what the next ones need.
    pub(crate) fn play<R: Print + AllocGlobal>(
        &mut self,
        rt: &R,
        tag: u8,
        line: &[u64],
    ) -> io::Result<()> {
        match tag {
            b'R' | b'T' => self.smallest(rt, line, tag == b'T')?,
            b'I' => puts::put(rt, self.board.map, line, &self.ledger)?,
            b'M' => search(rt, line, &self.board)?,
            b'P' => circle(rt, line, &self.board)?,
            b'J' => judge::sheet(rt, line, &self.board)?,
            b'N' => self.lend(line),
            b'L' | b'F' => ledgers::set(tag, line, &mut self.ledger),
            _ => self.board.set(tag, line),
        }
        Ok(())
    }
}
