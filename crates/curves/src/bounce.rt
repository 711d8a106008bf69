// The bounce curves.
ghost use Rattle.std.specs.Prelude.{◌≡◌};
ghost use Rattle.curves.specs.Bounce.{out_bounce, in_bounce, in_out_bounce, custom_bounce};

const N1: f32 = 7.5625;

const D1: f32 = 2.75;

pub fn ease_out_bounce(t: f32) -> f32
    ensures { result ≡ out_bounce t }
{
    if t < 1.0 / D1 {
        N1 * t * t
    } else if t < 2.0 / D1 {
        let u = t - 1.5 / D1;
        N1 * u * u + 0.75
    } else if t < 2.5 / D1 {
        let u = t - 2.25 / D1;
        N1 * u * u + 0.9375
    } else {
        let u = t - 2.625 / D1;
        N1 * u * u + 0.984_375
    }
}

pub fn ease_in_bounce(t: f32) -> f32
    ensures { result ≡ in_bounce t }
{
    1.0 - ease_out_bounce(1.0 - t)
}

pub fn ease_in_out_bounce(t: f32) -> f32
    ensures { result ≡ in_out_bounce t }
{
    if t < 0.5 {
        (1.0 - ease_out_bounce(1.0 - 2.0 * t)) / 2.0
    } else {
        (1.0 + ease_out_bounce(2.0 * t - 1.0)) / 2.0
    }
}

// A strength of 0 is a straight line, and 1 is ease_out_bounce.
pub fn custom_bounce(t: f32, strength: f32) -> f32
    ensures { result ≡ custom_bounce t strength }
{
    if t <= 0.0 {
        return 0.0;
    }
    if t >= 1.0 {
        return 1.0;
    }
    let s = math::clamp01(strength);
    t * (1.0 - s) + ease_out_bounce(t) * s
}
