// A float as its 32 bits and back, a NaN too: `to_bits` and `from_bits` ask for a proof that there is none.
ghost use Rattle.std.specs.Prelude.{◌≡◌};
ghost use Rattle.math.specs.Bits.{bits_of};
ghost use Rattle.math.specs.Rounded.{f32};

use std::num::{f32_from_bits_with_nan, f32_to_bits_with_nan};

// 0x7fc00000 for every NaN; -0 keeps its sign.
pub fn bits(x: f32) -> u32
    ensures { result ≡ bits_of x }
{
    f32_to_bits_with_nan(x)
}

// Every NaN's pattern reads alike.
pub fn of_bits(pattern: u32) -> f32
    ensures { result ≡ f32 pattern }
{
    f32_from_bits_with_nan(pattern)
}
