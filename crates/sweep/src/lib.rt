// A level's blocks gone through: chunk by chunk for four workers, each block examined, the survivors' children left for the next level.
#![tactic(auto)]

mod cut;
mod kept;
mod sweep;

pub use cut::level;
