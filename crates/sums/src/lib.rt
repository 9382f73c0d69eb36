// Prefix sums of the counts in a lent buffer, and the people of bands of rows and spans of columns: what they are. Crate `sums_fill` fills the buffer,
// `table` reads it.
#![tactic(auto)]

ghost use Rattle.std.specs.Prelude.{◌≡◌, ◌<◌, ◌+◌, ◌^◌};

use grid::{Col, Row};

// The rows from north to south, both included.
#[derive(Clone, Copy)]
pub struct RowBand {
    pub north: Row,
    pub south: Row,
}

// The rows from north to before end, by which corners are read.
#[derive(Clone, Copy)]
pub struct Rows {
    pub north: u32,
    pub end: u32,
}

impl RowBand {
    // The band by where it ends.
    pub fn rows(self) -> Rows
        requires { self.south.0 + 1 < 2 ^ 32 }
        ensures { result ≡ record { north = self.north.0; end = self.south.0 + 1 } }
    {
        Rows {
            north: self.north.0,
            end: self.south.0 + 1,
        }
    }
}

// The columns from west eastward to east, both included; across the seam where west is the greater.
#[derive(Clone, Copy)]
pub struct ColSpan {
    pub west: Col,
    pub east: Col,
}
