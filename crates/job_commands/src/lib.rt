// The commands of a job, read from bytes.
#![tactic(auto)]

mod bytes;
mod decoding;

pub use decoding::decode;
use grid::{Cell, Grid, Row};

// A spacing is the number in the job's bytes, and no `spacing::Spacing`: this crate knows nothing of a search, and that 0 is automatic is said where a
// command runs, by `job_step::spacing_of`.
#[derive(Clone, Copy)]
pub enum Command {
    SetGrid(Grid),
    SetCount {
        cell: Cell,
        count: u32,
    },
    SetCosine {
        row: Row,
        cosine: f64,
    },
    SetAngle {
        centre: Row,
        row: Row,
        offset: u32,
        angle: f64,
    },
    Most {
        spacing: u32,
        km: u32,
    },
    Least {
        spacing: u32,
        share: f64,
    },
    End,
}

// A command and the place of the byte after it.
#[derive(Clone, Copy)]
pub struct Decoded {
    pub command: Command,
    pub next: usize,
}
