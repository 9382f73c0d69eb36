// The put, by value through the C boundary and by lending. Each returns the number that C is told, 0 or that of a refusal: it is what a list holds, so
// that one line prints either and shows that they agree.
use crate::ledgers::{self, Words};
use crate::print;
use candidates::Candidate;
use grid::{Cell, Col, Grid, RadiusKm, Row};
use ledger::Entry;
use std::io;
use test_cases::Map;

fn by_value(grid: Grid, line: &[u64], after: &mut [u64]) -> u32 {
    jadurphen::jadurphen_put(
        grid.width,
        grid.height,
        grid.origin_lat,
        grid.lon_step,
        grid.lat_step,
        after,
        test_lines::short_at(line, 3),
        test_lines::short_at(line, 4),
        test_lines::short_at(line, 5),
        test_lines::word_at(line, 6),
    )
}

fn by_lending(grid: Grid, line: &[u64], before: &Words, after: &mut Words) -> u32 {
    let cell = Cell {
        row: Row(test_lines::short_at(line, 4)),
        col: Col(test_lines::short_at(line, 5)),
    };
    let entry = Entry {
        km: RadiusKm(test_lines::short_at(line, 3)),
        centre: Candidate::at(cell, test_lines::word_at(line, 6)),
    };
    let mut held = words::ledger_of(before);
    let lent = put::put_lent(&mut held, grid, entry);
    words::write_ledger(&held, after);
    match lent {
        Ok(()) => 0,
        Err(refusal) => refusal.number(),
    }
}

// The number returned; and among the words that have changed the entry's own, which stand where they are owed.
fn say(
    rt: &impl Print,
    refusal: u32,
    line: &[u64],
    before: &[u64],
    after: &[u64],
) -> io::Result<()> {
    let from = test_lines::size_at(line, 0);
    let by = test_lines::size_at(line, 2);
    let own = test_lines::differing(line, 3, after, from, by);
    let strays = ledgers::strayed(refusal, line, before, after);
    print!(rt; " {refusal}, changed")?;
    print::entries(rt, strays.wrapping_add(own), after)
}

// I: what is owed, km, row, col, population.
pub(crate) fn put(rt: &impl Print, map: Map, line: &[u64], before: &Words) -> io::Result<()> {
    let mut after = *before;
    print!(rt; ":")?;
    let refusal = by_value(map.grid, line, &mut after);
    say(rt, refusal, line, before, &after)?;
    print!(rt; "; lent")?;
    let lent = by_lending(map.grid, line, before, &mut after);
    say(rt, lent, line, before, &after)?;
    println!(rt)
}
