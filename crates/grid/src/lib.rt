// Rows, columns, cells and whole-kilometre radii, each a type of its own, and the grid that holds them.
#![tactic(auto)]

mod places;
mod refusal;

ghost use Rattle.std.specs.Prelude.{◌≡◌, ◌+◌, ◌<◌, ◌^◌};
ghost use Rattle.grid.specs.Grid.{row_found, col_found, radius_found, centre_lat, closing};

pub use places::{
    HALF_TURN, angle_of, arc_km, body_radius, ceiling, cells, closing, on_grid, sheet_index,
};
pub use refusal::Refusal;

// The most columns and the most rows that question 1 admits.
pub const MOST_COLUMNS: usize = 180;

pub const MOST_ROWS: usize = 90;

// A row and a column by number: types of their own, so that neither serves as the other.
#[derive(Clone, Copy, PartialEq, Eq, PartialOrd, Ord)]
pub struct Row(pub u32);

#[derive(Clone, Copy, PartialEq, Eq, PartialOrd, Ord)]
pub struct Col(pub u32);

// By `as`, and so are the sizes of a grid below: no From leads from u32 to usize. Each fits, and those who index write no cast.
impl From<Row> for usize {
    ghost from_gives = { λ row index. index ≡ row.0 };

    fn from(row: Row) -> usize {
        row.0 as usize
    }
}

impl From<Col> for usize {
    ghost from_gives = { λ col index. index ≡ col.0 };

    fn from(col: Col) -> usize {
        col.0 as usize
    }
}

#[derive(Clone, Copy, PartialEq, Eq, PartialOrd, Ord)]
pub struct Cell {
    pub row: Row,
    pub col: Col,
}

// A radius in whole kilometres.
#[derive(Clone, Copy, PartialEq, Eq, PartialOrd, Ord)]
pub struct RadiusKm(pub u32);

// Rows go south by index where the latitude step is below 0, columns go around the ring. No longitude is kept: distances read differences alone.
#[derive(Clone, Copy)]
pub struct Grid {
    pub width: u32,
    pub height: u32,
    pub origin_lat: f64,
    pub lon_step: f64,
    pub lat_step: f64,
}

// A grid with its sheet, lent: an angle for each centre row, row and column distance, and a cosine for each row.
#[derive(Clone, Copy)]
pub struct Globe<'a> {
    pub grid: Grid,
    pub angles: &'a [f64],
    pub cosines: &'a [f64],
}

// A globe with its counts, lent to a call.
#[derive(Clone, Copy)]
pub struct Map<'a> {
    pub globe: Globe<'a>,
    pub counts: &'a [u32],
}

impl RadiusKm {
    // The IUGG mean radius. Other crates read it by `body_radius`, of a grid.
    pub const EARTH_RADIUS_KM: f64 = 6371.0088;

    // The first whole kilometre at which every circle is the whole grid. Other crates read it by `ceiling`, of a grid.
    pub const CEILING: u32 = 20016;

    // No radius beyond the grid's ceiling is made: it would give the same circle.
    #[tactic(auto, unfolding(crate::specs::Grid::radius_found))]
    pub fn new(grid: Grid, km: u32) -> Option<RadiusKm>
        ensures { result ≡ radius_found grid km }
    {
        if km <= crate::ceiling(grid) {
            Some(RadiusKm(km))
        } else {
            None
        }
    }
}

impl Grid {
    // How many columns there are, as lengths and indices are counted. That it has 32 bits is said for those who are lent the grid.
    pub fn columns(self) -> usize
        ensures number { result ≡ self.width }
        ensures small { result < 2 ^ 32 }
    {
        self.width as usize
    }

    // How many rows.
    pub fn rows(self) -> usize
        ensures number { result ≡ self.height }
        ensures small { result < 2 ^ 32 }
    {
        self.height as usize
    }

    // How many angles the sheet has of a centre row and a row: one for each column distance.
    #[tactic(auto, unfolding(crate::specs::Grid::closing))]
    pub fn offsets(self) -> usize
        ensures number { result ≡ closing self + 1 }
        ensures small { result < 2 ^ 32 }
    {
        self.columns() / 2 + 1
    }

    // The row of a number, where the grid has it.
    #[tactic(auto, unfolding(crate::specs::Grid::row_found))]
    pub fn row(self, index: u32) -> Option<Row>
        ensures { result ≡ row_found self index }
    {
        if index < self.height {
            Some(Row(index))
        } else {
            None
        }
    }

    // The column of a number, where the grid has it. Beside `row`, and no generic one: each has a bound of its own and gives a type of its own.
    #[tactic(auto, unfolding(crate::specs::Grid::col_found))]
    pub fn col(self, index: u32) -> Option<Col>
        ensures { result ≡ col_found self index }
    {
        if index < self.width {
            Some(Col(index))
        } else {
            None
        }
    }

    // The latitude of the row's centre, which all its cells share: distances are between the centres of cells.
    #[tactic(auto, unfolding(crate::specs::Grid::centre_lat))]
    pub fn centre_lat(self, row: Row) -> f64
        ensures { result ≡ centre_lat self row }
    {
        self.origin_lat + (f64::from(row.0) + 0.5) * self.lat_step
    }
}
