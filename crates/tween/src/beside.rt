// `value` for a loop that moves a tween and leaves its easing as it is: the easing stands beside the tween, so
// that the loop copies none.
ghost use Rattle.std.specs.Prelude.{◌≡◌, true};
ghost use Rattle.tween.specs.Limits.{within_of};
ghost use Rattle.tween.specs.Calls.{blend_at, value_of};

use crate::record::Tween;
use bezier::Found;
use easing::Easing;
use units::Progress;

// The ends are exchanged while ping_pong_reverse.
pub(crate) fn blend_at(t: Tween, c: f32) -> f32
    ensures { result ≡ blend_at t c }
{
    if t.ping_pong_reverse {
        return math::blend(t.end, t.start, c);
    }
    math::blend(t.start, t.end, c)
}

// The value of a tween that is known to be within its limits: an inner step, for runs of many. Linear needs no
// call. Such a tween has a value: the 0 is never answered.
pub fn value_by(easing: Easing, t: Tween) -> Found
    requires { (within_of t ≡ true) × (t.easing ≡ easing) }
    ensures { value_of t ≡ Ok result }
{
    if t.duration == 0.0 {
        return Found::plain(t.end);
    }
    let p = math::ratio(t.elapsed, t.duration);
    if let Easing::Linear = easing {
        return Found::plain(blend_at(t, p));
    }
    match easing.apply(Progress(p)) {
        Ok(f) => f.with_value(blend_at(t, f.value)),
        Err(_) => Found::plain(0.0),
    }
}
