// Inner steps of our own crates: u comes clamped to 0..1.
ghost use Rattle.std.specs.Prelude.{◌≡◌};
ghost use Rattle.math.specs.Range.{Within};
ghost use Rattle.math.specs.Rounded.{f32};
ghost use Rattle.easing.specs.Params.{params, within_of};
ghost use Rattle.easing_words.specs.Drawing.{draw_of, holds_of, searched_of};

use bezier::Found;
use math::of_bits;
use words::is_plain;

// The curve of a plain kind; None of every other. Beside `Easing::apply`, since the C interface lends words
// and a kind is a number there.
pub fn draw(kind: u32, u: f32) -> Option<f32>
    requires { Within u }
    ensures { result ≡ draw_of kind u }
{
    match kind {
        0 => Some(u),
        1 => Some(curves::ease_in_quad(u)),
        2 => Some(curves::ease_out_quad(u)),
        3 => Some(curves::ease_in_out_quad(u)),
        4 => Some(curves::ease_in_cubic(u)),
        5 => Some(curves::ease_out_cubic(u)),
        6 => Some(curves::ease_in_out_cubic(u)),
        7 => Some(curves::ease_in_quart(u)),
        8 => Some(curves::ease_out_quart(u)),
        9 => Some(curves::ease_in_out_quart(u)),
        10 => Some(curves::ease_in_quint(u)),
        11 => Some(curves::ease_out_quint(u)),
        12 => Some(curves::ease_in_out_quint(u)),
        19 => Some(curves::ease_in_circ(u)),
        20 => Some(curves::ease_out_circ(u)),
        21 => Some(curves::ease_in_out_circ(u)),
        22 => Some(curves::ease_in_back(u)),
        23 => Some(curves::ease_out_back(u)),
        24 => Some(curves::ease_in_out_back(u)),
        28 => Some(curves::ease_in_bounce(u)),
        29 => Some(curves::ease_out_bounce(u)),
        30 => Some(curves::ease_in_out_bounce(u)),
        _ => None,
    }
}

// The limits of CubicBezier's parameters.
fn fits(x1: f32, y1: f32, x2: f32, y2: f32) -> bool
    ensures { result ≡ within_of (params x1 y1 x2 y2 0) }
{
    math::is_finite(x1)
        & (math::size(y1) <= 1024.0)
        & math::is_finite(x2)
        & (math::size(y2) <= 1024.0)
}

// Whether a record may hold the easing. false where this does not tell: of the other kinds with
// parameters, whose limits the easing has.
pub fn holds(kind: u32, a: u32, b: u32, c: u32, d: u32) -> bool
    ensures { result ≡ holds_of kind (f32 a) (f32 b) (f32 c) (f32 d) }
{
    if is_plain(kind) {
        return true;
    }
    if kind != 31 {
        return false;
    }
    fits(of_bits(a), of_bits(b), of_bits(c), of_bits(d))
}

// CubicBezier, by the words of its kind and parameters; None where they are beyond their limits, and of every
// other kind.
pub fn search(kind: u32, a: u32, b: u32, c: u32, d: u32, u: f32) -> Option<Found>
    ensures { result ≡ searched_of kind (f32 a) (f32 b) (f32 c) (f32 d) u }
{
    if kind != 31 {
        return None;
    }
    let x1 = of_bits(a);
    let y1 = of_bits(b);
    let x2 = of_bits(c);
    let y2 = of_bits(d);
    if fits(x1, y1, x2, y2) {
        return Some(bezier::cubic_bezier(u, x1, y1, x2, y2));
    }
    None
}
