// A map that lines set: G its grid, C its counts, A its angles, K its cosines.
ghost use Rattle.std.specs.Prelude.{◌≡◌, ℕ, IfOk, length, replicate};
ghost use Rattle.floats.specs.Binary.{whole};
ghost use Rattle.lists.specs.Front.{over};
ghost use Rattle.test_lines.specs.Numbers.{or_last};
ghost use Rattle.test_cases.specs.Board.{grid_of, no_map, board_of, board_set};

use grid::Grid;
use std::alloc::{AllocError, Global};

// The grid, and how much of each array a call is lent: of counts, angles and cosines as many as were listed last. The words
// filled are those of the sums that an answer fills, for who looks at them.
#[derive(Clone, Copy)]
pub struct Map {
    pub grid: Grid,
    pub counts: usize,
    pub angles: usize,
    pub cosines: usize,
    pub sums: usize,
    pub current: usize,
    pub following: usize,
    pub filled: usize,
}

// A map and its arrays.
#[derive(Drop)]
pub struct Board {
    pub map: Map,
    pub counts: Vec<u32>,
    pub angles: Vec<f64>,
    pub cosines: Vec<f64>,
}

fn grid_of(line: &[u64]) -> Grid
    ensures { result ≡ grid_of line.now }
{
    Grid {
        width: test_lines::short_at(line, 0),
        height: test_lines::short_at(line, 1),
        origin_lat: test_lines::float_at(line, 2),
        lon_step: test_lines::float_at(line, 3),
        lat_step: test_lines::float_at(line, 4),
    }
}

// No cells, and so many words of each buffer.
pub fn none(sums: usize, current: usize, following: usize) -> Map
    ensures { result ≡ no_map sums current following }
{
    let grid = Grid {
        width: 0,
        height: 0,
        origin_lat: 0.0,
        lon_step: 0.0,
        lat_step: 0.0,
    };
    Map {
        grid,
        counts: 0,
        angles: 0,
        cosines: 0,
        sums,
        current,
        following,
        filled: 0,
    }
}

// Every place overwritten, by the line's last number where the line has none.
fn put<T: Drop, F: Fn(u64) -> T + Drop>(places: &mut [T], line: &[u64], of: F)
    requires { F.IsAlwaysCallable of }
    ensures { (f : ℕ → T) → ((word : _) (x : T) → F.post of word x → x ≡ f word)
        → places.new ≡ over (λ i. f (or_last line.now i)) (length places.old) places.old }
{
    for (i, place) in places.iter_mut().enumerate() {
        *place = of(test_lines::or_last(line, i));
    }
}

impl Board {
    // The map, and room for so many counts, angles and rows, each 0.
    #[tactic(auto, using(floats::proofs::Literals::literal_0))]
    pub fn new(
        alloc: Global,
        map: Map,
        counts: usize,
        angles: usize,
        rows: usize,
    ) -> Result<Board, AllocError>
        ensures map { IfOk result (λ b. b.map ≡ map) }
        ensures counts { IfOk result (λ b. b.counts.items ≡ replicate counts 0) }
        ensures angles { IfOk result (λ b. b.angles.items ≡ replicate angles (whole 0)) }
        ensures cosines { IfOk result (λ b. b.cosines.items ≡ replicate rows (whole 0)) }
    {
        let counts = vec![in alloc; 0u32; counts]?;
        let angles = vec![in alloc; 0.0f64; angles]?;
        let cosines = vec![in alloc; 0.0f64; rows]?;
        Ok(Board {
            map,
            counts,
            angles,
            cosines,
        })
    }

    // After a line of another letter the map is as it was. An array's last number stands in every place behind it.
    #[tactic(auto, unfolding(crate::specs::Board::board_set))]
    pub fn set(&mut self, tag: u8, line: &[u64])
        ensures { board_of self.new ≡ board_set (board_of self.old) tag line.now }
    {
        match tag {
            b'G' => self.map.grid = grid_of(line),
            b'C' => {
                put(
                    self.counts.as_mut_slice(),
                    line,
                    |word| test_lines::short_of(word),
                );
                self.map.counts = line.len();
            }
            b'A' => {
                put(
                    self.angles.as_mut_slice(),
                    line,
                    |word| floats::from_bits(word),
                );
                self.map.angles = line.len();
            }
            b'K' => {
                put(
                    self.cosines.as_mut_slice(),
                    line,
                    |word| floats::from_bits(word),
                );
                self.map.cosines = line.len();
            }
            _ => {}
        }
    }
}
