// The limits of a tween.
ghost use Rattle.std.specs.Prelude.{◌≡◌};
ghost use Rattle.tween.specs.Limits.{idle_below, settings_within, clock_within, within_of};

use crate::record::{Tween, TweenState};

fn idle_below(state: TweenState, waited: f32, delay: f32) -> bool
    ensures { result ≡ idle_below state waited delay }
{
    match state {
        TweenState::Idle => waited < delay,
        TweenState::Running | TweenState::Paused | TweenState::Completed => true,
    }
}

#[tactic(auto, unfolding(crate::specs::Limits::settings_within))]
fn settings_within(t: Tween) -> bool
    ensures { result ≡ settings_within t }
{
    let looping = t.looping;
    let easing = t.easing;
    math::is_value(t.start)
        & math::is_value(t.end)
        & math::is_between(t.duration, 0.0, 16777216.0)
        & math::is_between(t.delay, 0.0, 16777216.0)
        & math::is_between(t.time_scale, 0.0, 1024.0)
        & looping.is_within_limits()
        & easing.fits_record()
}

#[tactic(auto, unfolding(crate::specs::Limits::clock_within))]
fn clock_within(t: Tween) -> bool
    ensures { result ≡ clock_within t }
{
    let state = t.state;
    math::is_between(t.elapsed, 0.0, t.duration)
        & math::is_between(t.delay_elapsed, 0.0, 33554432.0)
        & idle_below(state, t.delay_elapsed, t.delay)
}

// No type holds what this says: a tween's fields are public, a step sets four of them one by one, and every tween
// is taken, to be refused with 4 where it breaks a limit. So inner steps ask for it, or for the part they need.
// Not inlined: copies in C's calls would have 6 KB on a Cortex-M4F, and a reset took a quarter to a half longer.
#[tactic(auto, unfolding(crate::specs::Limits::within_of))]
#[inline(never)]
pub fn within(t: Tween) -> bool
    ensures { result ≡ within_of t }
{
    settings_within(t) & clock_within(t) & (t.loop_count <= 16777216)
}
