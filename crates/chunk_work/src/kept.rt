// Which kernel is wanted next, and for which blocks one serves.
ghost use Rattle.std.specs.Prelude.{◌≡◌, ◌&&◌, eqb};
ghost use Rattle.std.specs.Float.Ieee.{eq};
ghost use Rattle.chunk_work.specs.State.{no_shape, odd_columns};

use blocks::Block;
use grid::{Col, Row};

// Whether a kernel of this row and radius is the one wanted next.
pub(crate) fn same_kernel(row: Row, km: f64, next: Row, wanted: f64) -> bool
    ensures { result ≡ (eqb row.0 next.0 && eq km wanted) }
{
    row == next && km == wanted
}

// The shape of no block: its south row lies north of its north row. A block and no Option: one comparison of shapes then says whether a kernel
// serves, also before any block, and what it says is the definition's `same_shape`.
#[tactic(auto, unfolding(crate::specs::State::no_shape))]
pub fn no_shape() -> Block
    ensures { result ≡ no_shape }
{
    Block {
        north: Row(1),
        south: Row(0),
        first: Col(0),
        last: Col(0),
    }
}

// Which of two wide kernels a block goes by. Either is right; only speed rests on it: along a row the blocks of a level alternate between
// two widths, one column apart, and so between two radii.
#[tactic(auto, unfolding(crate::specs::State::odd_columns))]
pub fn odd_columns(block: Block) -> bool
    ensures { result ≡ odd_columns block }
{
    block.first.0 % 2 == block.last.0 % 2
}
