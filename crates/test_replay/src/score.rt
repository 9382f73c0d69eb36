// How many lines of a letter agree with the module, and how many differ.
#[derive(Clone, Copy)]
pub struct Seen {
    pub agree: u64,
    pub differ: u64,
}

// What was seen of the list: the lines by their letter, those not of the format, and whether the last one is the list's
// end.
#[derive(Clone, Copy)]
pub struct Score {
    pub seen: [Seen; 256],
    pub lines: u64,
    pub wrong: u64,
    pub ended: bool,
}

impl Score {
    // Nothing seen.
    pub(crate) fn none() -> Score {
        let none = Seen {
            agree: 0,
            differ: 0,
        };
        Score {
            seen: [none; 256],
            lines: 0,
            wrong: 0,
            ended: false,
        }
    }

    // A line that is not of the format.
    pub(crate) fn wrong(&mut self) {
        self.wrong = self.wrong.wrapping_add(1);
        self.lines = self.lines.wrapping_add(1);
        self.ended = false;
    }

    // The list's end, Z, gives the number of lines before it; nothing follows it.
    pub(crate) fn line(&mut self, tag: u8, agrees: bool, first: u64) {
        if self.ended || tag == b'Z' && first != self.lines {
            self.wrong();
            return;
        }
        self.lines = self.lines.wrapping_add(1);
        self.ended = tag == b'Z';
        let seen = &mut self.seen[usize::from(tag)];
        let lines = if agrees {
            &mut seen.agree
        } else {
            &mut seen.differ
        };
        *lines = lines.wrapping_add(1);
    }
}
