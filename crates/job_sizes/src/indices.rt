// Whether a job takes a grid, and the indices that are on it.
ghost use Rattle.std.specs.Prelude.{◌≡◌};
ghost use Rattle.job_sizes.specs.Sizes.{size_taken, cell_found, angle_found};

use crate::{AngleIndices, COLUMNS, ROWS};
use grid::{Cell, Grid, Row};

// Whether a job takes the grid.
#[tactic(auto, unfolding(crate::specs::Sizes::size_taken))]
pub fn size_taken(grid: Grid) -> bool
    ensures { result ≡ size_taken grid }
{
    grid.columns() <= COLUMNS && grid.rows() <= ROWS
}

// A C's cell, by the row and the column that the grid has.
#[tactic(auto, unfolding(crate::specs::Sizes::cell_found, grid::specs::Grid::on_grid, grid::specs::Grid::row_found, grid::specs::Grid::col_found))]
pub fn cell_on(grid: Grid, cell: Cell) -> Option<Cell>
    ensures { result ≡ cell_found grid cell }
{
    let row = grid.row(cell.row.0)?;
    let col = grid.col(cell.col.0)?;
    Some(Cell { row, col })
}

// An A's rows, by those that the grid has, and its offset, where that is at most closing.
#[tactic(auto, unfolding(crate::specs::Sizes::angle_found, crate::specs::Sizes::angle_on, crate::specs::Sizes::row_on_grid, grid::specs::Grid::row_found))]
pub fn angle_on(grid: Grid, centre: Row, row: Row, offset: u32) -> Option<AngleIndices>
    ensures { result ≡ angle_found grid centre row offset }
{
    let centre = grid.row(centre.0)?;
    let row = grid.row(row.0)?;
    if grid::closing(grid) < offset {
        return None;
    }
    Some(AngleIndices {
        centre,
        row,
        offset,
    })
}
