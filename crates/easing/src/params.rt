// The parameters of an easing, both ways, and their limits.
ghost use Rattle.std.specs.Prelude.{◌≡◌};
ghost use Rattle.easing.specs.Params.{params, params_of, of_number, within_of, equal_of};
ghost use Rattle.easing.specs.Apply.{fits_record_of};

use crate::kinds::Easing;

// b and d are the Bezier's y and the power, which have a limit of size. least is the smallest count
// of the kind.
#[derive(Clone, Copy)]
pub struct Params {
    pub a: f32,
    pub b: f32,
    pub c: f32,
    pub d: f32,
    pub count: u32,
    pub least: u32,
}

impl Params {
    // Of a kind whose smallest count is 0.
    pub fn new(a: f32, b: f32, c: f32, d: f32, count: u32) -> Params
        ensures { result ≡ params a b c d count }
    {
        Params {
            a,
            b,
            c,
            d,
            count,
            least: 0,
        }
    }
}

// What a kind does not have is 0.
pub fn params_of(e: Easing) -> Params
    ensures { result ≡ params_of e }
{
    match e {
        Easing::CubicBezier(x1, y1, x2, y2) => Params::new(x1, y1, x2, y2, 0),
        Easing::Steps(n) => Params::new(0.0, 0.0, 0.0, 0.0, n),
        Easing::RoughEase { strength, points } => Params::new(strength, 0.0, 0.0, 0.0, points),
        Easing::SlowMo {
            linear_ratio,
            power,
        } => Params::new(linear_ratio, power, 0.0, 0.0, 0),
        Easing::Wiggle { wiggles } => Params::new(0.0, 0.0, 0.0, 0.0, wiggles),
        Easing::CustomBounce { strength } => Params::new(strength, 0.0, 0.0, 0.0, 0),
        Easing::ExpoScale { start, end } => Params::new(start, end, 0.0, 0.0, 0),
        _ => Params::new(0.0, 0.0, 0.0, 0.0, 0),
    }
}

// Finite, b and d at most 1,024 in size, and the count from its kind's least to 65,536.
pub fn within(p: Params) -> bool
    ensures { result ≡ within_of p }
{
    math::is_finite(p.a)
        & (math::size(p.b) <= 1024.0)
        & math::is_finite(p.c)
        & (math::size(p.d) <= 1024.0)
        & (p.least <= p.count)
        & (p.count <= 65536)
}

// As numbers: -0 equals 0. least is the kind's, and no parameter: `equal_of` leaves it out, where a derived
// PartialEq would compare it.
pub fn equal(p: Params, q: Params) -> bool
    ensures { result ≡ equal_of p q }
{
    (p.a == q.a) & (p.b == q.b) & (p.c == q.c) & (p.d == q.d) & (p.count == q.count)
}

impl Easing {
    // The kind with this number, with these parameters; Linear for a number of none. A match and no place
    // in `all_named`: the seven kinds with parameters would need a match of their own behind it.
    pub fn of_number(kind: u32, p: Params) -> Easing
        ensures { result ≡ of_number kind p }
    {
        match kind {
            0 => Easing::Linear,
            1 => Easing::EaseInQuad,
            2 => Easing::EaseOutQuad,
            3 => Easing::EaseInOutQuad,
            4 => Easing::EaseInCubic,
            5 => Easing::EaseOutCubic,
            6 => Easing::EaseInOutCubic,
            7 => Easing::EaseInQuart,
            8 => Easing::EaseOutQuart,
            9 => Easing::EaseInOutQuart,
            10 => Easing::EaseInQuint,
            11 => Easing::EaseOutQuint,
            12 => Easing::EaseInOutQuint,
            13 => Easing::EaseInSine,
            14 => Easing::EaseOutSine,
            15 => Easing::EaseInOutSine,
            16 => Easing::EaseInExpo,
            17 => Easing::EaseOutExpo,
            18 => Easing::EaseInOutExpo,
            19 => Easing::EaseInCirc,
            20 => Easing::EaseOutCirc,
            21 => Easing::EaseInOutCirc,
            22 => Easing::EaseInBack,
            23 => Easing::EaseOutBack,
            24 => Easing::EaseInOutBack,
            25 => Easing::EaseInElastic,
            26 => Easing::EaseOutElastic,
            27 => Easing::EaseInOutElastic,
            28 => Easing::EaseInBounce,
            29 => Easing::EaseOutBounce,
            30 => Easing::EaseInOutBounce,
            31 => Easing::CubicBezier(p.a, p.b, p.c, p.d),
            32 => Easing::Steps(p.count),
            33 => Easing::RoughEase {
                strength: p.a,
                points: p.count,
            },
            34 => Easing::SlowMo {
                linear_ratio: p.a,
                power: p.b,
            },
            35 => Easing::Wiggle { wiggles: p.count },
            36 => Easing::CustomBounce { strength: p.a },
            37 => Easing::ExpoScale {
                start: p.a,
                end: p.b,
            },
            _ => Easing::Linear,
        }
    }

    // Whether a tween or a frame may hold it: supplied, and its parameters within their limits.
    pub fn fits_record(self) -> bool
        ensures { result ≡ fits_record_of self }
    {
        self.is_supplied() & within(params_of(self))
    }
}
