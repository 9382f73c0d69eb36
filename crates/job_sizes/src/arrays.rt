// The places of a map in arrays of fixed length: how many it takes of each, and the place of a count and of an angle.
ghost use Rattle.std.specs.Prelude.{◌≡◌, ◌+◌, ◌*◌, min};
ghost use Rattle.grid.specs.Grid.{closing};
ghost use Rattle.grid.specs.Map.{sheet_index};
ghost use Rattle.job_sizes.specs.Sizes.{job_angles, places_of};

use crate::{ANGLES, AngleIndices, CELLS, Places, ROWS};
use grid::{Cell, Grid};

// The place in the sheet of a pair of rows and an offset, or the array's length for any place beyond it. A pair that far out is not multiplied,
// since the product may need more than 64 bits. The length is no None: what is put there changes nothing, as at every place beyond an array, so
// that callers need no case.
#[tactic(auto, using(crate::proofs::Held::beyond))]
fn sheet_place(grid: Grid, pair: usize, offset: u32) -> usize
    ensures { result ≡ min (pair * (closing grid + 1) + offset) job_angles }
{
    if ANGLES <= pair {
        return ANGLES;
    }
    // The offset by `as`: no From leads from u32 to usize.
    (pair * grid.offsets() + offset as usize).min(ANGLES)
}

// How many places of each array the map takes. Its rows make height * height pairs, and its angles end where those of one more pair would begin.
#[tactic(auto, unfolding(crate::specs::Sizes::places_of))]
pub fn places_of(grid: Grid) -> Places
    ensures { result ≡ places_of grid }
{
    let height = grid.rows();
    Places {
        counts: grid::cells(grid).min(CELLS),
        angles: sheet_place(grid, height * height, 0),
        cosines: height.min(ROWS),
    }
}

// The place of a cell's count, row by row.
pub fn count_place(grid: Grid, cell: Cell) -> usize
    ensures { result ≡ cell.row.0 * grid.width + cell.col.0 }
{
    usize::from(cell.row) * grid.columns() + usize::from(cell.col)
}

// The place of an angle in the sheet, or the array's length for any place beyond it.
#[tactic(auto, unfolding(grid::specs::Map::sheet_index))]
pub fn angle_place(grid: Grid, at: AngleIndices) -> usize
    ensures { result ≡ min (sheet_index grid at.centre at.row at.offset) job_angles }
{
    let pair = usize::from(at.centre) * grid.rows() + usize::from(at.row);
    sheet_place(grid, pair, at.offset)
}
