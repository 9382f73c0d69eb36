// What is asked of a kernel: the people of its circles, and whether they are the whole grid.
#![tactic(auto)]

mod band;
mod cover;

pub use band::circle_population;
pub use cover::covers;
