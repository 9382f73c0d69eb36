// The lists of jobs, byte by byte: README.md has their format.
ghost use Rattle.std.specs.Prelude.{◌<◌, IfSome};

use std::alloc::{AllocError, Global};

// The letters of the commands stand for themselves.
fn is_letter(b: u8) -> bool {
    matches!(b, b'G' | b'C' | b'K' | b'A' | b'M' | b'R' | b'E')
}

// A hexadecimal digit.
fn digit(b: u8) -> Option<u8>
    ensures { IfSome result (λ d. d < 16) }
{
    match b {
        b'0'..=b'9' => Some(b - b'0'),
        b'a'..=b'f' => Some(10 + (b - b'a')),
        _ => None,
    }
}

// The bytes of a job's line: letters, and pairs of digits.
pub(crate) fn decoded(alloc: Global, line: &[u8]) -> Result<Vec<u8>, AllocError> {
    let mut job = Vec::new(alloc);
    let mut high = None;
    for b in line {
        if is_letter(*b) {
            job.push(*b)?;
            high = None;
        } else if let Some(low) = digit(*b) {
            if let Some(first) = high {
                job.push(first * 16 + low)?;
                high = None;
            } else {
                high = Some(low);
            }
        }
    }
    Ok(job)
}

// The byte at a place, 0 beyond the end.
fn byte_at(text: &[u8], at: usize) -> u8 {
    text.get(at).copied().unwrap_or(0)
}

// Whether the text goes on with the printed bytes, as many as were counted, and then with no further line of a job: most, least,
// refused. Where more were counted than there was room for, those behind the room are 0, as the text's are behind its end.
pub(crate) fn goes_on_with(text: &[u8], printed: &[u8], count: usize) -> bool {
    (0..count).all(|at| byte_at(text, at) == byte_at(printed, at))
        && !matches!(byte_at(text, count), b'm' | b'l' | b'r')
}
