// Replays the list of the original's answers, answers.txt: puts each call to the module and says how many answers agree
// and how many differ; how many lines there are, and how many are not of the format. README.md has the format.
#![tactic(auto)]

mod play;
mod score;

use play::Replay;
use score::Score;
use std::io;

// The most numbers of a line, and the bytes of the list.
const NUMBERS: usize = 17856;

const LIST: usize = 1048576;

// The numbers of a line with n entries, where a ledger has room for as many.
fn entries(n: u64) -> Option<u64> {
    if n <= test_cases::LEDGER_ENTRIES {
        Some(n * 4 + 1)
    } else {
        None
    }
}

// Whether a line of this letter has its numbers; a ledger says how many by its first. As many counts, angles and cosines
// as a map has are asked for by questions 4 and 5.
fn is_whole(tag: u8, line: &[u64]) -> bool {
    // By `as`: no From leads from usize to u64.
    let n = line.len() as u64;
    match tag {
        b'C' | b'A' | b'K' => true,
        b'Q' | b'Z' => n == 1,
        b'H' | b'S' => n == 2,
        b'P' => n == 4,
        b'G' => n == 5,
        b'M' => n == 11,
        b'R' => n == 27,
        b'L' | b'E' => entries(test_lines::word_at(line, 0)) == Some(n),
        _ => false,
    }
}

// What the next lines need is kept, a call is played.
fn line_played(replay: &mut Replay, score: &mut Score, text: &[u8]) {
    let mut numbers = [0u64; NUMBERS];
    let read = test_lines::numbers_of(text, &mut numbers);
    let line = test_lines::first(&numbers, read.count);
    match read.tag {
        Some(tag) if is_whole(tag, line) => {
            let agrees = replay.agrees(tag, line);
            replay.board.set(tag, line);
            score.line(tag, agrees, test_lines::word_at(line, 0));
        }
        _ => score.wrong(),
    }
}

// How many lines of a letter agree, and how many differ.
fn compared(rt: &impl Print, words: &str, score: &Score, letter: u8) -> io::Result<()> {
    let seen = score.seen[usize::from(letter)];
    println!(rt; "{words} {} agree, {} differ", seen.agree, seen.differ)
}

fn main(rt: HostRuntime) -> io::Result<()> {
    let list = test_lines::read(&rt, "answers.txt", LIST)?;
    let mut replay = Replay::new(rt.alloc())?;
    let mut score = Score::none();
    for text in list.split_inclusive(|b| *b == b'\n') {
        line_played(&mut replay, &mut score, text);
    }
    println!(rt; "maps {}", score.seen[usize::from(b'G')].agree)?;
    compared(&rt, "refused maps", &score, b'Q')?;
    compared(&rt, "circles", &score, b'P')?;
    compared(&rt, "spacings", &score, b'S')?;
    compared(&rt, "searches", &score, b'M')?;
    compared(&rt, "smallest radii", &score, b'R')?;
    compared(&rt, "ledgers after them", &score, b'E')?;
    println!(rt; "lines {}", score.lines)?;
    println!(rt; "wrong lines {}", score.wrong)?;
    if score.ended {
        println!(rt; "ended")?;
    }
    Ok(())
}
