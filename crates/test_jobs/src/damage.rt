// Damaged copies of a job: cut at every length, and with every byte replaced. Each must print whole lines and at most one
// refusal, the last.

// What a copy printed: lines of answers, a refusal by its number behind them, or anything else.
#[derive(Clone, Copy, PartialEq, Eq)]
enum Printed {
    Answers,
    Refused(usize),
    NotLines,
}

// The refusals are numbered from 1 on, below this.
pub(crate) const REFUSALS: usize = 16;

// How many copies printed what.
#[derive(Clone, Copy)]
pub struct Tally {
    pub copies: u64,
    pub not_refused: u64,
    pub refused: [u64; REFUSALS],
    pub not_lines: u64,
}

// The number of a refusal's line.
fn refusal_of(line: &[u8]) -> Option<usize> {
    let number = line.strip_prefix(b"refused ")?.strip_suffix(b"\n")?;
    str::from_utf8(number).ok()?.parse().ok()
}

fn printed_line(line: &[u8]) -> Printed {
    if line.last() != Some(&b'\n') {
        return Printed::NotLines;
    }
    match line.first() {
        Some(b'm' | b'l') => Printed::Answers,
        _ => refusal_of(line).map_or(Printed::NotLines, Printed::Refused),
    }
}

// A refusal is the last line.
fn printed_lines(printed: &[u8]) -> Printed {
    let mut last = Printed::Answers;
    for line in printed.split_inclusive(|b| *b == b'\n') {
        if last != Printed::Answers {
            return Printed::NotLines;
        }
        last = printed_line(line);
    }
    last
}

// Values that are likely to matter: ends of ranges, commands, neighbours, single bits.
fn values(old: u8) -> [u8; 10] {
    [
        0,
        255,
        b'E',
        b'M',
        b'G',
        old / 2,
        old.wrapping_add(1),
        old.wrapping_sub(1),
        old.wrapping_add(128),
        old.wrapping_add(16),
    ]
}

impl Tally {
    // Nothing run.
    pub(crate) fn none() -> Tally {
        Tally {
            copies: 0,
            not_refused: 0,
            refused: [0; REFUSALS],
            not_lines: 0,
        }
    }

    fn count(&mut self, printed: Printed) {
        self.copies = self.copies.saturating_add(1);
        match printed {
            Printed::Answers => self.not_refused = self.not_refused.saturating_add(1),
            Printed::Refused(number) if number < REFUSALS => {
                self.refused[number] = self.refused[number].saturating_add(1);
            }
            _ => self.not_lines = self.not_lines.saturating_add(1),
        }
    }

    fn run(&mut self, job: &[u8], room: &mut [u8]) {
        let count = job_output::run(job, room);
        let printed = match room.get(..count) {
            Some(printed) => printed_lines(printed),
            None => Printed::NotLines,
        };
        self.count(printed);
    }

    // Every length, the whole job's too.
    pub(crate) fn cut(&mut self, job: &[u8], room: &mut [u8]) {
        for n in 0..=job.len() {
            self.run(&job[..n], room);
        }
    }

    // Every byte, by each of the values.
    pub(crate) fn changed(&mut self, job: &mut [u8], room: &mut [u8]) {
        for at in 0..job.len() {
            let old = job[at];
            for value in values(old) {
                job[at] = value;
                self.run(job, room);
            }
            job[at] = old;
        }
    }
}
