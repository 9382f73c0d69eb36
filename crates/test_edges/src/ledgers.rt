// Ledgers as words: what lines set, and what of them a call has changed.

// A ledger.
pub(crate) type Words = [u64; test_cases::LEDGER_WORDS];

// F: the first word of a place, how many places from it on, kilometre, what it rises by from place to place, row, column,
// population.
fn fill(ledger: &mut [u64], line: &[u64]) {
    let mut at = test_lines::size_at(line, 0);
    let mut km = test_lines::word_at(line, 2);
    let row = test_lines::word_at(line, 4);
    let col = test_lines::word_at(line, 5);
    let population = test_lines::word_at(line, 6);
    for _ in 0..test_lines::word_at(line, 1) {
        test_lines::copy(&[km, row, col, population], ledger, at);
        at = at.wrapping_add(4);
        km = km.wrapping_add(test_lines::word_at(line, 3));
    }
}

// L: the first words, of which one is the number of entries.
pub(crate) fn set(tag: u8, line: &[u64], ledger: &mut [u64]) {
    match tag {
        b'L' => test_lines::copy(line, ledger, 0),
        b'F' => fill(ledger, line),
        _ => {}
    }
}

// How many words are not what a call owes. By a refusal none changes; else from a word on so many words have moved up, by so
// many, as the line's first numbers say, and the others are as they were, but for those between and the number of entries.
pub(crate) fn strayed(refusal: u32, line: &[u64], before: &[u64], after: &[u64]) -> u64 {
    if refusal != 0 {
        return test_lines::differing(before, 0, after, 0, test_cases::LEDGER_WORDS);
    }
    let from = test_lines::size_at(line, 0);
    let up = test_lines::size_at(line, 1);
    let next = from.wrapping_add(test_lines::size_at(line, 2));
    let rest = next.wrapping_add(up);
    let first = test_lines::differing(before, 1, after, 1, from.wrapping_sub(1));
    let moved = test_lines::differing(before, from, after, next, up);
    let last = test_lines::differing(before, rest, after, rest, test_cases::LEDGER_WORDS);
    first.wrapping_add(moved).wrapping_add(last)
}
