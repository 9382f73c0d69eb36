// The lines that a job prints.
ghost use Rattle.std.specs.Prelude.{◌≡◌, [], ◌++◌, ◌+◌, ◌*◌, ◌≤◌, ◌<◌, length};
ghost use Rattle.job_lines.specs.Line.{longest_field, field, fields, newline, short_fields, refused_line, most_line, least_line};
ghost use Rattle.job_lines.specs.State.{line_room, line_of, longer};

use crate::Line;
use itoa::Buffer;
use probes::{Smallest, Witness};
use search_rules::MostPopulous;

// A line of no bytes: none.
#[tactic(auto, unfolding(crate::specs::State::line_of))]
pub fn blank() -> Line
    ensures { result ≡ line_of [] }
{
    Line {
        len: 0,
        bytes: [0u8; Line::ROOM],
    }
}

// The line with more bytes behind it. By hand and not by `write!`, which promises the text on success alone, and a job's line may not fail;
// there is no heap for a String either, so that a line is an array with its length.
fn append(mut line: Line, more: &[u8]) -> Line
    requires { line.len + length more.now ≤ line_room }
    ensures { result ≡ longer line more.now }
{
    let start = line.len;
    let end = start + more.len();
    line.bytes[start..end].copy_from_slice(more);
    line.len = end;
    line
}

// A space and the number.
fn add_field(line: Line, n: u64) -> Line
    requires { line.len + longest_field ≤ line_room }
    ensures { result ≡ longer line (field n) }
{
    let spaced = append(line, b" ");
    append(spaced, Buffer::new().format(n).as_bytes())
}

// A field for each number.
fn add_fields(mut line: Line, numbers: &[u64]) -> Line
    requires { line.len + longest_field * length numbers.now ≤ line_room }
    ensures { result ≡ longer line (fields numbers.now) }
{
    for n in numbers {
        line = add_field(line, *n);
    }
    line
}

// A line as far as its word and its first numbers.
fn begin_line(word: &[u8], numbers: &[u64]) -> Line
    requires { length word.now + longest_field * length numbers.now ≤ line_room }
    ensures { result ≡ line_of (word.now ++ fields numbers.now) }
{
    add_fields(append(blank(), word), numbers)
}

// The line with its end.
fn end_line(line: Line) -> Line
    requires { line.len < line_room }
    ensures { result ≡ longer line newline }
{
    append(line, b"\n")
}

// The line of a refusal: "refused" and its number.
pub fn refused_line(number: u32) -> Line
    ensures { result ≡ line_of (refused_line number) }
{
    end_line(begin_line(b"refused", &[u64::from(number)]))
}

// The line of an M: "most", the radius, the centre with its population, and the counts of the work.
pub fn most_line(found: MostPopulous) -> Line
    ensures { result ≡ line_of (most_line found) }
{
    let centre = found.centre;
    let tally = found.tally;
    let stats = tally.stats;
    let numbers = [
        u64::from(found.radius.0),
        u64::from(centre.row.0),
        u64::from(centre.col.0),
        centre.population,
        u64::from(stats.levels),
        stats.blocks_examined,
        stats.blocks_pruned,
        stats.circles_evaluated,
        stats.kernels_built,
        tally.cells_pruned,
        tally.cells_settled,
    ];
    end_line(begin_line(b"most", &numbers))
}

// The witness's kilometre and population, or a dash for each: a number would say that there is a witness.
#[tactic(auto, unfolding(crate::specs::Line::short_fields))]
fn add_short(line: Line, short: Option<Witness>) -> Line
    requires { line.len + 2 * longest_field ≤ line_room }
    ensures { result ≡ longer line (short_fields short) }
{
    match short {
        Some(short) => add_fields(line, &[u64::from(short.km.0), short.population]),
        None => append(line, b" - -"),
    }
}

// The line of an R: "least", the radius, the centre with its population, the witness, and the radii evaluated and reused.
pub fn least_line(found: Smallest) -> Line
    ensures { result ≡ line_of (least_line found) }
{
    let centre = found.centre;
    let stats = found.stats;
    let first = [
        u64::from(found.radius_km.0),
        u64::from(centre.row.0),
        u64::from(centre.col.0),
        centre.population,
    ];
    let last = [stats.radii_evaluated, stats.radii_reused];
    let begun = begin_line(b"least", &first);
    let shown = add_short(begun, found.short_below);
    end_line(add_fields(shown, &last))
}
