// What crosses the C boundary: what each function of it gives, and an answer's words and floats. `jadurphen` has the functions.
// Words, floats and a flag before what may be absent, turned by hand: they are the C interface's, whose order the header says.
#![tactic(auto)]

mod searched;
mod settled;

pub use searched::{search_words, spacing_from};
pub use settled::{smallest_floats, smallest_words};
