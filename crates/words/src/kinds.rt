// An easing as six words: its kind's place in `all_named` from 0, up to four parameters and a count.
ghost use Rattle.std.specs.Prelude.{◌≡◌};
ghost use Rattle.words.specs.Kinds.{is_kind, easing_from, easing_words};

use easing::{Easing, KINDS, Params};

// CubicBezier: x1, y1, x2, y2 in a to d. Steps and Wiggle: count. RoughEase: strength in a, points in count.
// SlowMo: linear_ratio in a, power in b. CustomBounce: strength in a. ExpoScale: start in a, end in b.
// Words that a kind has no use for are not looked at, and are written as 0.
#[repr(C)]
#[derive(Clone, Copy)]
pub struct LaxEasing {
    pub kind: u32,
    pub a: f32,
    pub b: f32,
    pub c: f32,
    pub d: f32,
    pub count: u32,
}

// The number of a call whose words are no kind, no mode or no state.
pub const UNKNOWN_WORD: u32 = 100;

pub fn is_kind(kind: u32) -> bool
    ensures { result ≡ is_kind kind }
{
    kind < KINDS
}

// An Option, as of all that is read from words: a `TryFrom` would need an error that says no more than None.
pub fn easing_of(w: LaxEasing) -> Option<Easing>
    ensures { result ≡ easing_from w }
{
    if is_kind(w.kind) {
        let p = Params::new(w.a, w.b, w.c, w.d, w.count);
        return Some(Easing::of_number(w.kind, p));
    }
    None
}

// docs/CONTRACTS.md, c-words, has this and `tween_words` by name.
pub fn easing_words(e: Easing) -> LaxEasing
    ensures { result ≡ easing_words e }
{
    LaxEasing::from(e)
}

impl From<Easing> for LaxEasing {
    ghost from_gives = { λ e words. words ≡ easing_words e };

    fn from(e: Easing) -> LaxEasing {
        let p = easing::params_of(e);
        LaxEasing {
            kind: e.kind_number(),
            a: p.a,
            b: p.b,
            c: p.c,
            d: p.d,
            count: p.count,
        }
    }
}
