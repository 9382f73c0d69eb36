// The lists of the test programs: lines, each a letter and its numbers, and what a number stands for.
#![tactic(auto)]

mod numbers;
mod reader;
mod text;

pub use numbers::{
    beyond, bits_of, copy, differing, first, float_at, or_last, short_at, short_of, size_at,
    word_at,
};
pub use reader::{Line, numbers_of};
pub use text::read;
