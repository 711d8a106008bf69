// Keeping a float in a range.
ghost use Rattle.std.specs.Prelude.{◌≡◌, if◌then◌else◌};
ghost use Rattle.std.specs.Float.Ieee.{lt};
ghost use Rattle.math.specs.Range.{clamp_of, clamp01_of, max_zero_of, size_of, is_value, is_between};

use crate::pattern::of_bits;

// 2^-23.
pub const EPSILON: f32 = f32::EPSILON;

// Rust's f32::clamp, which panics where lo is above hi or either is a NaN; here lo is then tested first.
pub fn clamp(x: f32, lo: f32, hi: f32) -> f32
    ensures { result ≡ clamp_of x lo hi }
{
    if x < lo {
        return lo;
    }
    if x > hi {
        return hi;
    }
    x
}

// From 0 to 1: a zero keeps its sign, and a NaN stays one.
pub fn clamp01(x: f32) -> f32
    ensures { result ≡ clamp01_of x }
{
    clamp(x, 0.0, 1.0)
}

// The larger of x and 0: +0 for either zero, and for a NaN. By the least float above 0, 2^-149: a test
// against 0 itself becomes a maximum of the processor, and on Arm that keeps a signalling NaN.
pub fn max_zero(x: f32) -> f32
    ensures { result ≡ max_zero_of x }
{
    if of_bits(1) <= x { x } else { 0.0 }
}

// The size of x without its sign.
pub fn size(x: f32) -> f32
    ensures { result ≡ size_of x }
{
    x.abs()
}

// The larger of x and y, and x where one of them is a NaN.
fn larger(x: f32, y: f32) -> f32
    ensures { result ≡ (if lt x y then y else x) }
{
    if x < y { y } else { x }
}

// Whether x is below a limit in size. By the larger of x and -x, which takes no branch: one by the sign
// would be guessed wrong at every other random x.
pub fn is_below(x: f32, limit: f32) -> bool
    ensures { result ≡ lt (size_of x) limit }
{
    larger(x, -x) < limit
}

// Whether x is above a limit in size, as `is_below` asks it.
pub fn is_above(x: f32, limit: f32) -> bool
    ensures { result ≡ lt limit (size_of x) }
{
    limit < larger(x, -x)
}

// From lo to hi; a NaN is not.
pub fn is_between(x: f32, lo: f32, hi: f32) -> bool
    ensures { result ≡ is_between lo hi x }
{
    (lo <= x) & (x <= hi)
}

// Whether x may be a value: finite, and at most 16,777,216 in size.
pub fn is_value(x: f32) -> bool
    ensures { result ≡ is_value x }
{
    is_between(x, -16777216.0, 16777216.0)
}
