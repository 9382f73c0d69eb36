// Places and distances on the grid: cells, the sheet's places, the angle of a radius and the length of an arc.
ghost use Rattle.std.specs.Prelude.{◌≡◌};
ghost use Rattle.grid.specs.Grid.{body_radius, ceiling, angle_of, arc_km, on_grid, cells, closing};
ghost use Rattle.grid.specs.Map.{sheet_index};
ghost use Rattle.grid.specs.Requires.{InSheet};

use crate::{Cell, Grid, RadiusKm, Row};

// Half a turn in radians.
pub const HALF_TURN: f64 = 3.141592653589793;

// The radius of the body in kilometres: the Earth's on every grid.
#[tactic(auto, unfolding(crate::specs::Grid::body_radius))]
pub fn body_radius(grid: Grid) -> f64
    ensures { result ≡ body_radius grid }
{
    RadiusKm::EARTH_RADIUS_KM
}

// The first whole kilometre at which every circle is the whole grid.
#[tactic(auto, unfolding(crate::specs::Grid::ceiling))]
pub fn ceiling(grid: Grid) -> u32
    ensures { result ≡ ceiling grid }
{
    RadiusKm::CEILING
}

// The angle of a radius: at most half a turn, since nothing lies further away.
#[tactic(auto, unfolding(crate::specs::Grid::angle_of))]
pub fn angle_of(grid: Grid, km: f64) -> f64
    ensures { result ≡ angle_of grid km }
{
    floats::lesser(km / body_radius(grid), HALF_TURN)
}

// The length in kilometres of an arc of that angle.
#[tactic(auto, unfolding(crate::specs::Grid::arc_km))]
pub fn arc_km(grid: Grid, angle: f64) -> f64
    ensures { result ≡ arc_km grid angle }
{
    body_radius(grid) * angle
}

// Whether the grid has that row and that column.
#[tactic(auto, unfolding(crate::specs::Grid::on_grid, crate::specs::Grid::row_found, crate::specs::Grid::col_found))]
pub fn on_grid(grid: Grid, cell: Cell) -> bool
    ensures { result ≡ on_grid grid cell }
{
    grid.row(cell.row.0).is_some() && grid.col(cell.col.0).is_some()
}

// How many cells the grid has.
#[tactic(auto, unfolding(crate::specs::Grid::cells))]
pub fn cells(grid: Grid) -> usize
    ensures { result ≡ cells grid }
{
    grid.columns() * grid.rows()
}

// The largest column distance around the ring: from there on columns come nearer on the other side.
#[tactic(auto, unfolding(crate::specs::Grid::closing))]
pub fn closing(grid: Grid) -> u32
    ensures { result ≡ closing grid }
{
    grid.width / 2
}

// The place in the sheet of the angle from a centre row to a row at a column distance.
#[tactic(auto, unfolding(crate::specs::Map::sheet_index, crate::specs::Grid::closing))]
pub fn sheet_index(grid: Grid, centre: Row, row: Row, offset: u32) -> usize
    requires { InSheet grid centre row offset }
    ensures { result ≡ sheet_index grid centre row offset }
{
    // The offset by `as`: it is a number of 32 bits and no type of its own, so no From leads to usize.
    (usize::from(centre) * grid.rows() + usize::from(row)) * grid.offsets() + offset as usize
}
