// What a listed number stands for: a float, a 32-bit number, a place; and words that differ.
ghost use Rattle.std.specs.Prelude.{◌≡◌, take, drop};
ghost use Rattle.std.specs.Float.{binary64};
ghost use Rattle.std.specs.Float.Ieee.{to_bits};
ghost use Rattle.std.proofs.lemmas.List.Edits.{sets};
ghost use Rattle.test_lines.specs.Numbers.{short_of, number_at, short_number_at, float_at, or_last, differing};

// The bits of a float that is not a number, of which the module makes no other.
const NAN: u64 = 0x7ff8000000000000;

// The bits of a float. The language has no bits for a NaN, so they are written here.
pub fn bits_of(x: f64) -> u64
    ensures { result ≡ to_bits binary64 x }
{
    if x.is_nan() { NAN } else { x.to_bits() }
}

// Numbers beyond 32 bits become the largest.
#[tactic(auto, unfolding(crate::specs::Numbers::short_of))]
pub fn short_of(word: u64) -> u32
    ensures { result ≡ short_of word }
{
    u32::try_from(word).unwrap_or(u32::MAX)
}

// The number at a place, or 0 where there is none.
pub fn word_at(line: &[u64], at: usize) -> u64
    ensures { result ≡ number_at line.now at }
{
    line.get(at).copied().unwrap_or(0)
}

// The number at a place as one of 32 bits.
pub fn short_at(line: &[u64], at: usize) -> u32
    ensures { result ≡ short_number_at line.now at }
{
    short_of(word_at(line, at))
}

// The number at a place as a length or an index, by `as`: no From leads from u64 to usize.
pub fn size_at(line: &[u64], at: usize) -> usize
    ensures { result ≡ number_at line.now at }
{
    word_at(line, at) as usize
}

// The number at a place as a float's bits.
pub fn float_at(line: &[u64], at: usize) -> f64
    ensures { result ≡ float_at line.now at }
{
    floats::from_bits(word_at(line, at))
}

// The number at a place, or the last one behind it.
#[tactic(auto, unfolding(crate::specs::Numbers::or_last))]
pub fn or_last(line: &[u64], i: usize) -> u64
    ensures { result ≡ or_last line.now i }
{
    line.get(i).or(line.last()).copied().unwrap_or(0)
}

// The words of a line or an array, put into another from a place on, as far as there is room.
pub fn copy(from: &[u64], to: &mut [u64], at: usize)
    ensures { to.new ≡ sets to.old at from.now }
{
    let at = at.min(to.len());
    let n = from.len().min(to.len() - at);
    to[at..at + n].copy_from_slice(&from[..n]);
}

// The first n, or all where there are fewer.
pub fn first<T>(xs: &[T], n: usize) -> &[T]
    ensures { result.now ≡ take n xs.now }
{
    xs.get(..n).unwrap_or(xs)
}

// What is left behind the first n; nothing where there are fewer.
pub fn beyond<T>(xs: &[T], n: usize) -> &[T]
    ensures { result.now ≡ drop n xs.now }
{
    let none: &[T] = &[];
    xs.get(n..).unwrap_or(none)
}

// How many of n words of a, from place i on, are not those of b from place j on. Beyond an end there are zeros.
pub fn differing(a: &[u64], i: usize, b: &[u64], j: usize, n: usize) -> u64
    ensures { result ≡ differing a.now i b.now j n }
{
    let a = beyond(a, i);
    let b = beyond(b, j);
    let mut count = 0;
    for k in 0..n {
        count += u64::from(word_at(a, k) != word_at(b, k));
    }
    count
}
