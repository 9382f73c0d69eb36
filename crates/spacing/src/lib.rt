// The spacing of the first blocks, given or found for the radius.
#![tactic(auto, unfolding(crate::specs::Spacing::open_spacings, floats::specs::Binary::open_floats, lists::specs::Counted::max))]

mod side;

pub use side::{initial_spacing, spacing_given, spacing_of};

// The side of the first level's blocks: found for the radius, or so many cells. It has the shape of an Option, and its names say what a
// None would not.
#[derive(Clone, Copy)]
pub enum Spacing {
    Automatic,
    Cells(u32),
}
