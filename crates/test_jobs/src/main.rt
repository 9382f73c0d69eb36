// Plays two lists of jobs: what each job prints is compared with its list, and damaged copies of the short ones are run.
// README.md has the format.
#![tactic(auto)]

mod damage;
mod text;

use damage::Tally;
use std::alloc::{AllocError, Global};
use std::io;
use std::rt::Files;

// The jobs of a list, and what damaged copies printed.
#[derive(Clone, Copy)]
pub struct Score {
    pub agree: u64,
    pub differ: u64,
    pub tally: Tally,
}

// A job of at most so many bytes is damaged too.
const SHORT: usize = 256;

// The bytes of a list, of a job, and of what a job prints.
const LIST: usize = 262144;

const JOB: usize = 65536;

const PRINTED: usize = 65536;

impl Score {
    // The job, whose lines stand at the front of the list. A job of more bytes than there may be is not run, and differs.
    fn play(&mut self, job: &mut [u8], list: &[u8], room: &mut [u8], damages: bool) {
        let agrees = if job.len() <= JOB {
            let count = job_output::run(job, room);
            text::goes_on_with(list, room, count)
        } else {
            false
        };
        if agrees {
            self.agree = self.agree.saturating_add(1);
        } else {
            self.differ = self.differ.saturating_add(1);
        }
        if damages && job.len() <= SHORT {
            self.tally.cut(job, room);
            self.tally.changed(job, room);
        }
    }
}

// The lines of the list in turn: a job's is played.
fn played(alloc: Global, list: &[u8], damages: bool) -> Result<Score, AllocError> {
    let mut score = Score {
        agree: 0,
        differ: 0,
        tally: Tally::none(),
    };
    let mut room = vec![in alloc; 0u8; PRINTED]?;
    // What stands behind a line, which a job's output is compared with.
    let mut rest = list;
    for line in list.split_inclusive(|b| *b == b'\n') {
        rest = test_lines::beyond(rest, line.len());
        if line.first() == Some(&b'J') {
            let mut job = text::decoded(alloc, line)?;
            score.play(&mut job, rest, &mut room, damages);
        }
    }
    Ok(score)
}

// The list is let go before the next one is read.
fn read_list<R: Files + Print + AllocGlobal>(
    rt: &R,
    name: &str,
    damages: bool,
) -> io::Result<Score> {
    let list = test_lines::read(rt, name, LIST)?;
    Ok(played(rt.alloc(), &list, damages)?)
}

fn say_score(rt: &impl Print, name: &str, score: &Score) -> io::Result<()> {
    println!(rt;
        "{name}: {} jobs agree, {} differ",
        score.agree, score.differ
    )
}

fn main(rt: HostRuntime) -> io::Result<()> {
    let listed = read_list(&rt, "jobs.txt", true)?;
    let edges = read_list(&rt, "edges.txt", false)?;
    say_score(&rt, "the original's", &listed)?;
    say_score(&rt, "edges", &edges)?;
    let tally = listed.tally;
    println!(rt; "damaged copies {}", tally.copies)?;
    println!(rt; "not refused {}", tally.not_refused)?;
    for number in 1..damage::REFUSALS {
        println!(rt; "refused by {number} {}", tally.refused[number])?;
    }
    println!(rt; "not lines {}", tally.not_lines)
}
