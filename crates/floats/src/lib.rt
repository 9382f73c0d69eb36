// The operations on binary64 that the Rust has beyond the operators, each equal to its definition at every value. Those that only call the
// library's stand here since their contracts are in the definitions' words (`absolute`, `finite`, `next_up`): a caller that called the
// library's would prove that anew. `abs` and `next_up` also name the law of a body that compares with zero, so that such a body is judged by
// what it gives.
#![tactic(auto)]

ghost use Rattle.std.specs.Prelude.{◌≡◌};
ghost use Rattle.floats.specs.Binary.{finite, absolute, greater, lesser, next_up};
ghost use Rattle.std.specs.Float.{binary64};
ghost use Rattle.std.specs.Float.Ieee.{of_bits};

// The distance from 1 to the next value up: 2 to the power of -52.
pub const EPSILON: f64 = f64::EPSILON;

// Neither NaN nor infinite.
pub fn is_finite(x: f64) -> bool
    ensures { result ≡ finite x }
{
    x.is_finite()
}

// The magnitude. The sign of zero is cleared too, as IEEE 754 has it.
#[tactic(auto, using(crate::proofs::Absolute::unsigned_is, crate::proofs::Absolute::absolute_is, lists::proofs::Bools::of_true))]
pub fn abs(x: f64) -> f64
    ensures { result ≡ absolute x }
{
    x.abs()
}

// The greater of two; the first where they are equal or one is NaN, where `f64::max` gives the other one.
#[tactic(auto, unfolding(crate::specs::Binary::greater))]
pub fn greater(x: f64, y: f64) -> f64
    ensures { result ≡ greater x y }
{
    if x < y { y } else { x }
}

// The lesser of two; the first where they are equal or one is NaN, where `f64::min` gives the other one.
#[tactic(auto, unfolding(crate::specs::Binary::lesser))]
pub fn lesser(x: f64, y: f64) -> f64
    ensures { result ≡ lesser x y }
{
    if y < x { y } else { x }
}

// The least value that compares greater: one more in the bits above 0, one less below 0. NaN and +infinity stay.
#[tactic(auto, using(crate::proofs::Next::next_is, crate::proofs::Next::next_zero, lists::proofs::Bools::of_true))]
pub fn next_up(x: f64) -> f64
    ensures { result ≡ next_up x }
{
    x.next_up()
}

// The value of any pattern; there is one NaN.
pub fn from_bits(bits: u64) -> f64
    ensures { result ≡ of_bits binary64 bits }
{
    std::num::f64_from_bits_with_nan(bits)
}
