// The kinds of easing, in the order of `all_named`.
ghost use Rattle.std.specs.Prelude.{◌≡◌};
ghost use Rattle.easing.specs.Kinds.{number_of, supplied_of, all_named};

// The kinds of Sine, Expo and Elastic, RoughEase, Wiggle and ExpoScale are named, and refused.
#[derive(Clone, Copy)]
pub enum Easing {
    Linear,
    EaseInQuad,
    EaseOutQuad,
    EaseInOutQuad,
    EaseInCubic,
    EaseOutCubic,
    EaseInOutCubic,
    EaseInQuart,
    EaseOutQuart,
    EaseInOutQuart,
    EaseInQuint,
    EaseOutQuint,
    EaseInOutQuint,
    EaseInSine,
    EaseOutSine,
    EaseInOutSine,
    EaseInExpo,
    EaseOutExpo,
    EaseInOutExpo,
    EaseInCirc,
    EaseOutCirc,
    EaseInOutCirc,
    EaseInBack,
    EaseOutBack,
    EaseInOutBack,
    EaseInElastic,
    EaseOutElastic,
    EaseInOutElastic,
    EaseInBounce,
    EaseOutBounce,
    EaseInOutBounce,
    // x1, y1, x2, y2 of the two control points; x is clamped to 0..1.
    CubicBezier(f32, f32, f32, f32),
    // 0 counts as 1.
    Steps(u32),
    RoughEase { strength: f32, points: u32 },
    // linear_ratio is the part of the time that is slow; the edges are power + 1 times as fast.
    SlowMo { linear_ratio: f32, power: f32 },
    Wiggle { wiggles: u32 },
    // 0 is a straight line, 1 is EaseOutBounce.
    CustomBounce { strength: f32 },
    ExpoScale { start: f32, end: f32 },
}

// How many kinds are named.
pub const KINDS: u32 = 38;

impl Easing {
    // The kind's place in `all_named`, from 0. A match: kinds with parameters have no `as u32`.
    pub fn kind_number(self) -> u32
        ensures { result ≡ number_of self }
    {
        match self {
            Easing::Linear => 0,
            Easing::EaseInQuad => 1,
            Easing::EaseOutQuad => 2,
            Easing::EaseInOutQuad => 3,
            Easing::EaseInCubic => 4,
            Easing::EaseOutCubic => 5,
            Easing::EaseInOutCubic => 6,
            Easing::EaseInQuart => 7,
            Easing::EaseOutQuart => 8,
            Easing::EaseInOutQuart => 9,
            Easing::EaseInQuint => 10,
            Easing::EaseOutQuint => 11,
            Easing::EaseInOutQuint => 12,
            Easing::EaseInSine => 13,
            Easing::EaseOutSine => 14,
            Easing::EaseInOutSine => 15,
            Easing::EaseInExpo => 16,
            Easing::EaseOutExpo => 17,
            Easing::EaseInOutExpo => 18,
            Easing::EaseInCirc => 19,
            Easing::EaseOutCirc => 20,
            Easing::EaseInOutCirc => 21,
            Easing::EaseInBack => 22,
            Easing::EaseOutBack => 23,
            Easing::EaseInOutBack => 24,
            Easing::EaseInElastic => 25,
            Easing::EaseOutElastic => 26,
            Easing::EaseInOutElastic => 27,
            Easing::EaseInBounce => 28,
            Easing::EaseOutBounce => 29,
            Easing::EaseInOutBounce => 30,
            Easing::CubicBezier(_, _, _, _) => 31,
            Easing::Steps(_) => 32,
            Easing::RoughEase {
                strength: _,
                points: _,
            } => 33,
            Easing::SlowMo {
                linear_ratio: _,
                power: _,
            } => 34,
            Easing::Wiggle { wiggles: _ } => 35,
            Easing::CustomBounce { strength: _ } => 36,
            Easing::ExpoScale { start: _, end: _ } => 37,
        }
    }

    // Whether the kind is one of the 26.
    pub fn is_supplied(self) -> bool
        ensures { result ≡ supplied_of self }
    {
        match self {
            Easing::EaseInSine
            | Easing::EaseOutSine
            | Easing::EaseInOutSine
            | Easing::EaseInExpo
            | Easing::EaseOutExpo
            | Easing::EaseInOutExpo
            | Easing::EaseInElastic
            | Easing::EaseOutElastic
            | Easing::EaseInOutElastic
            | Easing::RoughEase {
                strength: _,
                points: _,
            }
            | Easing::Wiggle { wiggles: _ }
            | Easing::ExpoScale { start: _, end: _ } => false,
            _ => true,
        }
    }

    // The 38 names, with the source's parameters.
    pub fn all_named() -> [Easing; 38]
        ensures { result ≡ all_named }
    {
        [
            Easing::Linear,
            Easing::EaseInQuad,
            Easing::EaseOutQuad,
            Easing::EaseInOutQuad,
            Easing::EaseInCubic,
            Easing::EaseOutCubic,
            Easing::EaseInOutCubic,
            Easing::EaseInQuart,
            Easing::EaseOutQuart,
            Easing::EaseInOutQuart,
            Easing::EaseInQuint,
            Easing::EaseOutQuint,
            Easing::EaseInOutQuint,
            Easing::EaseInSine,
            Easing::EaseOutSine,
            Easing::EaseInOutSine,
            Easing::EaseInExpo,
            Easing::EaseOutExpo,
            Easing::EaseInOutExpo,
            Easing::EaseInCirc,
            Easing::EaseOutCirc,
            Easing::EaseInOutCirc,
            Easing::EaseInBack,
            Easing::EaseOutBack,
            Easing::EaseInOutBack,
            Easing::EaseInElastic,
            Easing::EaseOutElastic,
            Easing::EaseInOutElastic,
            Easing::EaseInBounce,
            Easing::EaseOutBounce,
            Easing::EaseInOutBounce,
            Easing::CubicBezier(0.25, 0.1, 0.25, 1.0),
            Easing::Steps(1),
            Easing::RoughEase {
                strength: 0.5,
                points: 8,
            },
            Easing::SlowMo {
                linear_ratio: 0.5,
                power: 0.7,
            },
            Easing::Wiggle { wiggles: 5 },
            Easing::CustomBounce { strength: 0.7 },
            Easing::ExpoScale {
                start: 0.5,
                end: 2.0,
            },
        ]
    }
}
