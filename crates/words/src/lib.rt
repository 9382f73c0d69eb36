// A ledger as lent words: word 0 the number of entries, then kilometre, row, column and population of each place. Words and no structs,
// since the C interface lends a slice of 64-bit numbers.
#![tactic(auto)]

ghost use Rattle.std.specs.Prelude.{◌≡◌, true, ◌++◌, ◌<◌, ◌+◌, ◌^◌, ltb, length, take, drop};
ghost use Rattle.ledger.specs.Ledger.{capacity};
ghost use Rattle.words.specs.Words.{entry_words, ledger_length, place_fits, ledger_fits, place_at, read_ledger, ledger_of, ledger_words};

use candidates::Candidate;
use grid::{Cell, Col, RadiusKm, Row};
use ledger::{Entry, Ledger};

// The number of words of a ledger: the number of entries, and four of each place.
pub const LEDGER_WORDS: usize = 1 + 4 * Ledger::CAPACITY;

// Whether a word is a number of 32 bits.
fn fits(word: u64) -> bool
    ensures { result ≡ ltb word (2 ^ 32) }
{
    word <= u64::from(u32::MAX)
}

// Whether kilometre, row and column of place i fit their 32 bits.
#[tactic(auto, unfolding(crate::specs::Words::place_fits))]
fn place_fits(words: &[u64], i: usize) -> bool
    requires words_len { length words.now ≡ ledger_length }
    requires i_lt_capacity { i < capacity }
    ensures { result ≡ place_fits words.now i }
{
    let at = 1 + 4 * i;
    fits(words[at]) && fits(words[at + 1]) && fits(words[at + 2])
}

// Whether these are the words of a ledger.
fn ledger_fits(words: &[u64]) -> bool
    ensures { result ≡ ledger_fits words.now }
{
    if words.len() != LEDGER_WORDS {
        return false;
    }
    for i in 0..Ledger::CAPACITY {
        if !place_fits(words, i) {
            return false;
        }
    }
    true
}

// The entry that the four words of place i say. Its kilometre is as it was lent, and question 11 judges it. By `as`, here and below: these
// words fit, and no From leads from u64 to a smaller number or between u64 and usize.
fn place_at(words: &[u64], i: usize) -> Entry
    requires words_value { ledger_fits words.now ≡ true }
    requires i_lt_capacity { i < capacity }
    ensures { result ≡ place_at words.now i }
{
    let at = 1 + 4 * i;
    let km = words[at] as u32;
    let row = words[at + 1] as u32;
    let col = words[at + 2] as u32;
    let population = words[at + 3];
    let cell = Cell {
        row: Row(row),
        col: Col(col),
    };
    Entry {
        km: RadiusKm(km),
        centre: Candidate::at(cell, population),
    }
}

// The ledger that words which fit say.
fn read_ledger(words: &[u64]) -> Ledger
    requires { ledger_fits words.now ≡ true }
    ensures { result ≡ read_ledger words.now }
{
    let mut ledger = ledger::fresh();
    ledger.len = words[0] as usize;
    for i in 0..Ledger::CAPACITY {
        ledger.places[i] = place_at(words, i);
    }
    ledger
}

// The ledger of the words. Words that are none are read as one entry more than there are places, which question 11 refuses in its turn: a call
// answers for the questions before it first.
pub fn ledger_of(words: &[u64]) -> Ledger
    ensures { result ≡ ledger_of words.now }
{
    if ledger_fits(words) {
        return read_ledger(words);
    }
    let mut ledger = ledger::fresh();
    ledger.len = Ledger::CAPACITY + 1;
    ledger
}

// The four words of an entry, from word at on.
#[tactic(auto, unfolding(crate::specs::Words::entry_words))]
fn write_place(words: &mut [u64], at: usize, entry: Entry)
    requires { at + 3 < length words.old }
    ensures { words.new ≡ take at words.old ++ entry_words entry ++ drop (at + 4) words.old }
{
    let centre = entry.centre;
    words[at..at + 4].copy_from_slice(&[
        u64::from(entry.km.0),
        u64::from(centre.row.0),
        u64::from(centre.col.0),
        centre.population,
    ]);
}

// The words of a ledger, written over those lent. The number of entries comes last, so that the loop starts from the words as they were lent.
// The places are gone through as a slice, which tells that the array is whole: a lent ledger's type doesn't.
pub fn write_ledger(ledger: &Ledger, words: &mut [u64])
    requires { length words.old ≡ ledger_length }
    ensures { words.new ≡ ledger_words ledger.now }
{
    let places: &[Entry] = &ledger.places;
    for (i, entry) in places.iter().enumerate() {
        write_place(words, 1 + 4 * i, *entry);
    }
    words[0] = ledger.len as u64;
}
