// Question 6 of a sheet's angles, by a judge that is fed them.
#![tactic(auto)]

mod judge;

use grid::Grid;
pub use judge::angles_in_order;

// A judge of a sheet's angles, fed in the sheet's order: where the next one stands, the angle before it, the latest
// offset-0 angle, and whether all is well.
#[derive(Clone, Copy)]
pub struct SheetJudge {
    grid: Grid,
    centre: u32,
    row: u32,
    offset: u32,
    before: f64,
    head: f64,
    well: bool,
}
