// The judge of a sheet, fed the angles that are lent: one by one, or in pieces.
ghost use Rattle.std.specs.Prelude.{◌<◌};

use grid::Grid;
use sheet::SheetJudge;
use std::io;
use test_cases::Board;

fn by_angle(grid: Grid, angles: &[f64]) -> bool {
    let mut judge = SheetJudge::start(grid);
    for angle in angles {
        judge = judge.feed(*angle);
    }
    judge.verdict()
}

// The last piece is what is left, of n angles or fewer.
fn by_pieces(grid: Grid, angles: &[f64], n: usize) -> bool
    requires { 0 < n }
{
    let mut judge = SheetJudge::start(grid);
    for piece in angles.chunks(n) {
        judge = judge.feed_all(piece);
    }
    judge.verdict()
}

// J: the length of the pieces, 0 for one by one.
pub(crate) fn sheet(rt: &impl Print, line: &[u64], board: &Board) -> io::Result<()> {
    let grid = board.map.grid;
    let lent = test_lines::first(&board.angles, board.map.angles);
    let n = test_lines::size_at(line, 0);
    let well = if n == 0 {
        by_angle(grid, lent)
    } else {
        by_pieces(grid, lent, n)
    };
    let words = if well { "well" } else { "refused" };
    println!(rt; ": {words}")
}
