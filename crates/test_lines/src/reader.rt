// A line: a letter, then unsigned decimals of at most 64 bits, each after one space, and a newline byte.
ghost use Rattle.std.specs.Prelude.{◌+◌, ◌^◌, ◌<◌, ◌≡◌, cond, Some, None};
ghost use Rattle.test_lines.specs.Lines.{fits, with_digit, took_digit, took, last_put, line_read};

use crate::numbers;

// What is known between two bytes, and at the end: the letter, or none where a byte was not in its place; how many numbers
// there are, and the last of them. The count is no length: a line holds no numbers but the last.
#[derive(Clone, Copy)]
pub struct Line {
    pub tag: Option<u8>,
    pub count: usize,
    pub value: u64,
}

// The last number with one more digit, where the byte is one and it fits.
#[tactic(auto, unfolding(crate::specs::Lines::fits))]
fn with_digit(r: Line, b: u8) -> Option<u64>
    ensures { result ≡ cond (fits r b) (Some (with_digit r b)) None }
{
    if r.count == 0 || !b.is_ascii_digit() {
        return None;
    }
    r.value.checked_mul(10)?.checked_add(u64::from(b - b'0'))
}

// A byte that is no such digit takes the letter away.
#[tactic(auto, unfolding(crate::specs::Lines::took_digit))]
fn took_digit(r: Line, b: u8) -> Line
    ensures { result ≡ took_digit r b }
{
    match with_digit(r, b) {
        Some(value) => Line { value, ..r },
        None => Line { tag: None, ..r },
    }
}

// A space begins a number.
#[tactic(auto, unfolding(crate::specs::Lines::took))]
fn took(r: Line, b: u8) -> Line
    requires { r.count + 1 < 2 ^ 64 }
    ensures { result ≡ took r b }
{
    match b {
        b' ' => Line {
            count: r.count + 1,
            value: 0,
            ..r
        },
        b'\n' => r,
        _ => took_digit(r, b),
    }
}

// The last number goes to its place among the words, where there is one.
#[tactic(auto, unfolding(crate::specs::Lines::last_put))]
fn put_last(r: Line, words: &mut [u64])
    ensures { words.new ≡ last_put r words.old }
{
    if 0 < r.count && r.count <= words.len() {
        words[r.count - 1] = r.value;
    }
}

// The numbers behind the letter, put into the words lent as far as there is room: who calls says how many a line may have.
pub fn numbers_of(line: &[u8], words: &mut [u64]) -> Line
    ensures { record { line = result; words = words.new } ≡ line_read line.entry.now words.old }
{
    let mut r = Line {
        tag: line.first().copied(),
        count: 0,
        value: 0,
    };
    let rest = numbers::beyond(line, 1);
    for b in rest {
        r = took(r, *b);
        put_last(r, words);
    }
    r
}
