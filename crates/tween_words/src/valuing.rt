// The value of a tween, of a plain kind or of CubicBezier.
ghost use Rattle.std.specs.Prelude.{◌≡◌, true};
ghost use Rattle.tween_words.specs.Fitting.{fits_of};
ghost use Rattle.tween_words.specs.Valuing.{blended, ValuesTo};

use crate::fitting::fits;
use bezier::Found;
use easing_words::{draw, search};

#[derive(Clone, Copy)]
pub enum Valued {
    Plain(f32),
    Searched(Found),
}

// The ends are exchanged while ping_pong_reverse.
fn blend_in(w: &[u32; 18], c: f32) -> f32
    requires { fits_of w.now ≡ true }
    ensures { result ≡ blended w.now c }
{
    let start = f32::from_bits(w[0]);
    let end = f32::from_bits(w[1]);
    if w[17] != 0 {
        return math::blend(end, start, c);
    }
    math::blend(start, end, c)
}

pub fn value(w: &[u32; 18]) -> Option<Valued>
    ensures { ValuesTo w.now result }
{
    if !fits(w) {
        return None;
    }
    let duration = f32::from_bits(w[2]);
    if duration == 0.0 {
        return Some(Valued::Plain(f32::from_bits(w[1])));
    }
    let p = math::ratio(f32::from_bits(w[13]), duration);
    if math::is_nan(p) {
        return None;
    }
    let u = math::clamp01(p);
    if let Some(c) = draw(w[3], u) {
        return Some(Valued::Plain(blend_in(w, c)));
    }
    if let Some(found) = search(w[3], w[4], w[5], w[6], w[7], u) {
        return Some(Valued::Searched(found.with_value(blend_in(w, found.value))));
    }
    None
}
