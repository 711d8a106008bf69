// What kind of float it is.
ghost use Rattle.std.specs.Prelude.{◌≡◌, false, is_nan};
ghost use Rattle.std.specs.Float.{inf};
ghost use Rattle.math.specs.Range.{is_finite};

pub fn is_nan(x: f32) -> bool
    ensures { result ≡ is_nan x }
{
    x.is_nan()
}

pub fn infinity() -> f32
    ensures { result ≡ inf false }
{
    f32::INFINITY
}

// Neither a NaN nor an infinity.
pub fn is_finite(x: f32) -> bool
    ensures { result ≡ is_finite x }
{
    x.is_finite()
}
