// The edges of the calls, played through: cases.txt names each case, sets what it is asked on, and asks. README.md has the
// format of the list, and what a printed line says.
#![tactic(auto)]

mod judge;
mod ledgers;
mod play;
mod print;
mod puts;

use play::Game;
use std::io;
use test_cases::Board;

// The most numbers of a line, the bytes of the list, and the arrays of the largest map: one cell and one row beyond what the
// calls accept.
const NUMBERS: usize = 128;

const LIST: usize = 131072;

const COUNTS: usize = 181;

const ANGLES: usize = 8281;

const ROWS: usize = 91;

fn line_played<R: Print + AllocGlobal>(rt: &R, game: &mut Game, text: &[u8]) -> io::Result<()> {
    let mut numbers = [0u64; NUMBERS];
    let read = test_lines::numbers_of(text, &mut numbers);
    let line = test_lines::first(&numbers, read.count);
    match read.tag {
        Some(tag) => game.play(rt, tag, line),
        None => print::name(rt, text),
    }
}

fn main(rt: HostRuntime) -> io::Result<()> {
    let list = test_lines::read(&rt, "cases.txt", LIST)?;
    let map = test_cases::none(0, 0, 0);
    let mut game = Game {
        board: Board::new(rt.alloc(), map, COUNTS, ANGLES, ROWS)?,
        ledger: [0; test_cases::LEDGER_WORDS],
    };
    for text in list.split_inclusive(|b| *b == b'\n') {
        line_played(&rt, &mut game, text)?;
    }
    Ok(())
}
