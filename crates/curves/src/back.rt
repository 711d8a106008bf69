// The back curves, which overshoot.
ghost use Rattle.std.specs.Prelude.{◌≡◌};
ghost use Rattle.curves.specs.Back.{in_back, out_back, in_out_back};

use crate::powers::{by_half, square};

const BACK_C1: f32 = 1.701_58;

const BACK_C2: f32 = BACK_C1 * 1.525;

const BACK_C3: f32 = BACK_C1 + 1.0;

pub fn ease_in_back(t: f32) -> f32
    ensures { result ≡ in_back t }
{
    BACK_C3 * t * t * t - BACK_C1 * t * t
}

pub fn ease_out_back(t: f32) -> f32
    ensures { result ≡ out_back t }
{
    let u = t - 1.0;
    1.0 + BACK_C3 * u * u * u + BACK_C1 * u * u
}

pub fn ease_in_out_back(t: f32) -> f32
    ensures { result ≡ in_out_back t }
{
    by_half(
        t,
        square(2.0 * t) * ((BACK_C2 + 1.0) * 2.0 * t - BACK_C2) / 2.0,
        (square(2.0 * t - 2.0) * ((BACK_C2 + 1.0) * (2.0 * t - 2.0) + BACK_C2) + 2.0) / 2.0,
    )
}
