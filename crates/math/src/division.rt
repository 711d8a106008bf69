// What a division of floats leaves, worked out from the bits.
ghost use Rattle.std.specs.Prelude.{◌≡◌, ◌+◌, ◌-◌, ◌*◌, ◌/◌, ◌%◌, ◌^◌, ◌<◌, ◌≤◌, Bool, if◌then◌else◌};
ghost use Rattle.std.specs.Float.{binary32};
ghost use Rattle.std.specs.Float.Ieee.{rem, round};
ghost use Rattle.math.specs.Rounded.{f32};

use crate::pattern::{bits, of_bits};

// A finite float above 0, by its pattern n, is q * 2^units smallest values, 2^-149 each, where
// q = n - units * 2^23.
fn units(n: u32) -> u32
    ensures { result ≡ n / 8388608 - 1 }
{
    let field = n / 0x80_0000;
    if field == 0 {
        return 0;
    }
    field - 1
}

// What q * 2^shift leaves over d, 40 binary digits a turn: for two floats seven turns at most. A `for` over those
// turns would have to work out shift / 40 and shift % 40 first.
fn reduced(q: u32, shift: u32, d: u32) -> u32
    requires { (q < 16777216) × (0 < d) × (d < 16777216) }
    ensures { result ≡ q * 2 ^ shift % d }
{
    let by = d as u64;
    let mut left = q as u64;
    let mut digits = shift;
    while digits > 40 {
        left = (left << 40) % by;
        digits -= 40;
    }
    ((left << digits) % by) as u32
}

// The pattern of q * 2^units smallest values.
fn pattern(q: u32, units: u32) -> u32
    requires { (q < 16777216) × (units ≤ 253) }
    ensures small { result < 2147483648 }
    ensures reads { (s : Bool) → f32 ((if s then 2147483648 else 0) + result) ≡ round binary32 s (q * 2 ^ units) (2 ^ 149) }
{
    if q == 0 {
        return 0;
    }
    let zeros = u32::leading_zeros(q) - 8;
    if zeros < units {
        return (units - zeros) * 0x80_0000 + (q << zeros);
    }
    q << units
}

// C's fmodf: x less y times the whole part of x / y, exact, with the sign of x. Rattle's `%` calls it, and the library
// needs no C library.
pub fn remainder(x: f32, y: f32) -> f32
    ensures { result ≡ rem binary32 x y }
{
    let n = bits(x);
    let a = n % 0x8000_0000;
    let b = bits(y) % 0x8000_0000;
    if b > 0x7f80_0000 {
        return y;
    }
    if a < b {
        return x;
    }
    if a >= 0x7f80_0000 {
        return f32::NAN;
    }
    if b == 0 {
        return f32::NAN;
    }
    let high = units(a);
    let low = units(b);
    let left = reduced(a - high * 0x80_0000, high - low, b - low * 0x80_0000);
    of_bits(n - a + pattern(left, low))
}
