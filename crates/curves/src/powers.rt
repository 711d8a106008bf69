// The curves of the second to the fifth power. Each of the source's names is one line here: with a trait for the power
// it would still be one, that calls the trait's.
ghost use Rattle.std.specs.Prelude.{◌≡◌, if◌then◌else◌};
ghost use Rattle.std.specs.Float.Ieee.{lt};
ghost use Rattle.math.specs.Rounded.{half_f};
ghost use Rattle.curves.specs.Powers.{quad, cubic, quart, quint, powi, in_power, out_power, in_out_power};

// powi(x, 2)
pub fn square(x: f32) -> f32
    ensures { result ≡ powi quad x }
{
    x * x
}

// powi(x, 3)
fn cube(x: f32) -> f32
    ensures { result ≡ powi cubic x }
{
    x * x * x
}

// powi(x, 4)
fn fourth(x: f32) -> f32
    ensures { result ≡ powi quart x }
{
    let s = x * x;
    s * s
}

// powi(x, 5)
fn fifth(x: f32) -> f32
    ensures { result ≡ powi quint x }
{
    let s = x * x;
    s * s * x
}

// `below` for a t below a half, and else `above`. Both are worked out before the test: a branch
// would be guessed wrong at every other random t.
pub fn by_half(t: f32, below: f32, above: f32) -> f32
    ensures { result ≡ (if lt t half_f then below else above) }
{
    if t < 0.5 { below } else { above }
}

pub fn ease_in_quad(t: f32) -> f32
    ensures { result ≡ in_power quad t }
{
    t * t
}

pub fn ease_out_quad(t: f32) -> f32
    ensures { result ≡ out_power quad t }
{
    1.0 - (1.0 - t) * (1.0 - t)
}

pub fn ease_in_out_quad(t: f32) -> f32
    ensures { result ≡ in_out_power quad t }
{
    by_half(t, 2.0 * t * t, 1.0 - square(-2.0 * t + 2.0) / 2.0)
}

pub fn ease_in_cubic(t: f32) -> f32
    ensures { result ≡ in_power cubic t }
{
    t * t * t
}

pub fn ease_out_cubic(t: f32) -> f32
    ensures { result ≡ out_power cubic t }
{
    1.0 - cube(1.0 - t)
}

pub fn ease_in_out_cubic(t: f32) -> f32
    ensures { result ≡ in_out_power cubic t }
{
    by_half(t, 4.0 * t * t * t, 1.0 - cube(-2.0 * t + 2.0) / 2.0)
}

pub fn ease_in_quart(t: f32) -> f32
    ensures { result ≡ in_power quart t }
{
    t * t * t * t
}

pub fn ease_out_quart(t: f32) -> f32
    ensures { result ≡ out_power quart t }
{
    1.0 - fourth(1.0 - t)
}

pub fn ease_in_out_quart(t: f32) -> f32
    ensures { result ≡ in_out_power quart t }
{
    by_half(t, 8.0 * t * t * t * t, 1.0 - fourth(-2.0 * t + 2.0) / 2.0)
}

pub fn ease_in_quint(t: f32) -> f32
    ensures { result ≡ in_power quint t }
{
    t * t * t * t * t
}

pub fn ease_out_quint(t: f32) -> f32
    ensures { result ≡ out_power quint t }
{
    1.0 - fifth(1.0 - t)
}

pub fn ease_in_out_quint(t: f32) -> f32
    ensures { result ≡ in_out_power quint t }
{
    by_half(
        t,
        16.0 * t * t * t * t * t,
        1.0 - fifth(-2.0 * t + 2.0) / 2.0,
    )
}
