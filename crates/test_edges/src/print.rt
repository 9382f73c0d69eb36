// Lines of cases.
use std::io;

// What the words of the sums and of the level buffers are before a call.
pub(crate) const BEFORE: u64 = 7;

// How many words the sums and each level buffer have.
pub(crate) const BUFFER: usize = 400;

// A case's name, which is printed but for the two bytes before it and the newline.
pub(crate) fn name(rt: &impl Print, line: &[u8]) -> io::Result<()> {
    if let [b'=', _, name @ .., _] = line {
        rt.write_all(name)?;
    }
    Ok(())
}

// How many words of a buffer have changed that should not have: after a refusal any, after an answer those from a place on.
pub(crate) fn changed(
    rt: &impl Print,
    refusal: u32,
    words: &[u64],
    place: usize,
) -> io::Result<()> {
    let before = [BEFORE; BUFFER];
    let from = if refusal == 0 { place } else { 0 };
    print!(rt;
        " {}",
        test_lines::differing(words, from, &before, from, BUFFER)
    )
}

// The refusal, or the answer's words and the last prefix sum.
pub(crate) fn answer(
    rt: &impl Print,
    refusal: u32,
    words: &[u64],
    sums: &[u64],
    filled: usize,
) -> io::Result<()> {
    if refusal == 0 {
        print!(rt; ":")?;
        for word in words {
            print!(rt; " {word}")?;
        }
        print!(rt; " of {}", test_lines::word_at(sums, filled.wrapping_sub(1)))?;
    } else {
        print!(rt; ": refused {refusal}")?;
    }
    print!(rt; ", changed")?;
    changed(rt, refusal, sums, filled)
}

// The end of a line of a call that is lent a ledger: how many words have changed that should not have, and the entries.
pub(crate) fn entries(rt: &impl Print, changed: u64, ledger: &[u64]) -> io::Result<()> {
    print!(rt; " {changed}, {} entries", test_lines::word_at(ledger, 0))
}
