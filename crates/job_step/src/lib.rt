// The job: commands in bytes, lines out, one step at a time over a state by value.
#![tactic(auto)]

mod calls;
mod change;
mod steps;

use job_lines::Line;
pub use steps::{apply, step};

// What a command that is not refused prints, beside the state that it changes in its place: a line, which may be none, and whether it is
// the last.
#[derive(Clone, Copy)]
pub struct Printed {
    pub line: Line,
    pub last: bool,
}
