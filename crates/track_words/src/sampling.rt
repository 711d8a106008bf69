// The value of frames at a time.
ghost use Rattle.std.specs.Prelude.{◌≡◌, true, false, ◌+◌, ◌-◌, ◌<◌, ◌≤◌, take};
ghost use Rattle.std.specs.Float.Ieee.{is_nan};
ghost use Rattle.math.specs.Range.{Within};
ghost use Rattle.frames.specs.Inner.{counted, times_of};
ghost use Rattle.frames.specs.Limits.{frame_within, frames_within, is_time};
ghost use Rattle.frames.specs.Sampling.{eased_of, between_of, sample_of};
ghost use Rattle.words.specs.Kinds.{easing_from};
ghost use Rattle.words.specs.Tracks.{easing_in};
ghost use Rattle.words.specs.Lent.{easing_at, float_at};
ghost use Rattle.track_words.specs.Reading.{frame_in, frames_of};

use crate::reading::{easing_at, word_at};
use bezier::Found;
use easing_words::{draw, search};

// The float at a place where no NaN's pattern stands.
fn number_at(w: &[u32; 518], at: usize) -> f32
    requires { (at < 518) × (is_nan (float_at w.now at) ≡ false) }
    ensures { result ≡ float_at w.now at }
{
    f32::from_bits(word_at(w, at))
}

// How many of the first n times, the first and the last left out, are at or before t. Times are
// from +0 up, so their patterns are in their order.
fn interval(w: &[u32; 518], n: usize, t: f32) -> usize
    requires { (frames_within (take n (frames_of w.now)) ≡ true) × (1 ≤ n) × (n ≤ 64) × (is_time t ≡ true) }
    ensures { (result < 63) × (result ≡ counted (times_of (frames_of w.now)) t (n - 1)) }
{
    let last = n - 1;
    let top = f32::to_bits(t);
    let mut count: u32 = 0;
    for i in 1..last {
        count += (word_at(w, 8 * i) <= top) as u32;
    }
    count as usize
}

// A curve that needs no easing is drawn by its kind's number.
fn eased(w: &[u32; 518], at: usize, p: f32) -> Found
    requires { (at ≤ 506) × Within p }
    ensures { result ≡ eased_of (easing_in (easing_from (easing_at w.now at))) p }
{
    let kind = word_at(w, at);
    if let Some(v) = draw(kind, p) {
        return Found::plain(v);
    }
    let a = word_at(w, at + 1);
    let b = word_at(w, at + 2);
    let c = word_at(w, at + 3);
    let d = word_at(w, at + 4);
    if let Some(found) = search(kind, a, b, c, d, p) {
        return found;
    }
    words::eased(easing_at(w, at), p)
}

fn between(w: &[u32; 518], low: usize, t: f32) -> Found
    requires { let f = frame_in w.now in (low < 63) × (is_time t ≡ true) × (frame_within (f low) ≡ true) × (frame_within (f (low + 1)) ≡ true) }
    ensures { result ≡ between_of (frame_in w.now low) (frame_in w.now (low + 1)) t }
{
    let at = 8 * low;
    let next = 8 * (low + 1);
    let p = frames::along(number_at(w, at), number_at(w, next), t);
    let found = eased(w, at + 2, p);
    found.with_value(math::blend(number_at(w, at + 1), number_at(w, next + 1), found.value))
}

pub fn sample(w: &[u32; 518], n: usize, secs: f32) -> Found
    requires { (frames_within (take n (frames_of w.now)) ≡ true) × (1 ≤ n) × (n ≤ 64) }
    ensures { result ≡ sample_of (take n (frames_of w.now)) secs }
{
    let at = 8 * (n - 1);
    let last = number_at(w, at);
    let t = frames::cut(math::max_zero(secs), last);
    if t <= number_at(w, 0) {
        return Found::plain(number_at(w, 1));
    }
    if last <= t {
        return Found::plain(number_at(w, at + 1));
    }
    let low = interval(w, n, t);
    between(w, low, t)
}
