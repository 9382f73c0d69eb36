// A block's children and the grid's first blocks, written as words into a level's buffer.
#![tactic(auto)]

ghost use Rattle.std.specs.Prelude.{◌≡◌, ◌+◌, ◌-◌, ◌≤◌, min, length};
ghost use Rattle.lists.specs.Lists.{each};
ghost use Rattle.blocks.specs.Block.{range, split, tile};
ghost use Rattle.blocks.specs.State.{word_of, column_halves, tile_row, Written, Tiled};
ghost use Rattle.pieces.specs.Requires.{CanSplit, CanHalve};

use blocks::Block;
use grid::{Col, Grid, Row};

// The block with its columns halved, the west one first, from place at on; the place after them.
fn halve_columns(block: Block, words: &mut [u64], at: usize) -> usize
    requires { CanHalve block words.old at }
    ensures { Written words.old at (each word_of (column_halves block)) words.new result }
{
    if block.first == block.last {
        words[at] = u64::from(block);
        return at + 1;
    }
    let mid = blocks::middle(block.first.0, block.last.0);
    words[at] = u64::from(Block {
        last: Col(mid),
        ..block
    });
    words[at + 1] = u64::from(Block {
        first: Col(mid + 1),
        ..block
    });
    at + 2
}

// The children's words from place at on, the north-west one first; the place after them.
pub fn split(block: Block, words: &mut [u64], at: usize) -> usize
    requires { CanSplit block words.old at }
    ensures { Written words.old at (each word_of (split block)) words.new result }
{
    if blocks::is_cell(block) {
        return at;
    }
    if block.north == block.south {
        return halve_columns(block, words, at);
    }
    let mid = blocks::middle(block.north.0, block.south.0);
    let upper = Block {
        south: Row(mid),
        ..block
    };
    let lower = Block {
        north: Row(mid + 1),
        ..block
    };
    let next = halve_columns(upper, words, at);
    halve_columns(lower, words, next)
}

// The last number of a step from low, not beyond high.
fn step_end(low: u32, step: u32, high: u32) -> u32
    ensures { result ≡ min (low + (step - 1)) high }
{
    low.saturating_add(step.saturating_sub(1)).min(high)
}

// A row of tiles from place at on, from the west; the place after them.
fn tile_row(width: u32, spacing: u32, north: u32, south: u32, words: &mut [u64], at: usize) -> usize
    requires { at + length (tile_row width spacing (range north south)) ≤ length words.old }
    ensures { Written words.old at (each word_of (tile_row width spacing (range north south))) words.new result }
{
    // By `as`, here and below: no From leads from u32 to usize.
    let mut next = at;
    for first in (0..width).step_by(spacing.max(1) as usize) {
        let last = step_end(first, spacing, width - 1);
        words[next] = u64::from(Block {
            north: Row(north),
            south: Row(south),
            first: Col(first),
            last: Col(last),
        });
        next += 1;
    }
    next
}

// The grid's first blocks at the front of a buffer, row by row from the north-west, and how many they are.
pub fn tile(grid: Grid, spacing: u32, words: &mut [u64]) -> usize
    requires { length (tile grid spacing) ≤ length words.old }
    ensures { Tiled words.old (each word_of (tile grid spacing)) words.new result }
{
    let width = grid.width;
    let height = grid.height;
    let mut next: usize = 0;
    for north in (0..height).step_by(spacing.max(1) as usize) {
        let south = step_end(north, spacing, height - 1);
        next = tile_row(width, spacing, north, south, words, next);
    }
    next
}
