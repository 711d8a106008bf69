// The value at a time, from the frames beside it.
ghost use Rattle.std.specs.Prelude.{◌≡◌};
ghost use Rattle.frames.specs.Sampling.{cut_of, span_of, local_progress, eased_of, between_of, pick_of};

use crate::frame::Keyframe;
use bezier::Found;
use easing::Easing;
use units::Progress;

// x, and top from there on; top where x is a NaN.
pub fn cut(x: f32, top: f32) -> f32
    ensures { result ≡ cut_of x top }
{
    if x < top { x } else { top }
}

// A span of d seconds, and of 2^-23 where d is less.
pub fn span_of(d: f32) -> f32
    ensures { result ≡ span_of d }
{
    if math::EPSILON < d { d } else { math::EPSILON }
}

// 0 where the easing refuses, which no easing of a frame within limits does.
pub fn eased(e: Easing, p: f32) -> Found
    ensures { result ≡ eased_of e p }
{
    match e.apply(Progress(p)) {
        Ok(found) => found,
        Err(_) => Found::plain(0.0),
    }
}

// How far t is from one time to the next: 0 to 1.
pub fn along(from: f32, to: f32, t: f32) -> f32
    ensures { result ≡ local_progress from to t }
{
    math::clamp01((t - from) / span_of(to - from))
}

// The blend at a t between the times of k and l.
fn between(k: Keyframe, l: Keyframe, t: f32) -> Found
    ensures { result ≡ between_of k l t }
{
    let p = along(k.time, l.time, t);
    let e = k.easing;
    let found = eased(e, p);
    found.with_value(math::blend(k.value, l.value, found.value))
}

// The value at t, where k and l are the frames before and after it.
pub fn pick(first: Keyframe, last: Keyframe, k: Keyframe, l: Keyframe, t: f32) -> Found
    ensures { result ≡ pick_of first last k l t }
{
    if t <= first.time {
        return Found::plain(first.value);
    }
    if last.time <= t {
        return Found::plain(last.value);
    }
    between(k, l, t)
}
