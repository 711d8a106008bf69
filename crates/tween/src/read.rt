// The calls that only read. Each is refused 4 where the tween breaks a limit.
ghost use Rattle.std.specs.Prelude.{◌≡◌, true};
ghost use Rattle.tween.specs.Limits.{within_of};
ghost use Rattle.tween.specs.Calls.{progress_in, blend_in, lasts, progress_of, eased_progress_of, value_of, snapshot_of, playback_duration_of};

use crate::beside::blend_at;
use crate::limits::within;
use crate::record::{Tween, TweenSnapshot};
use bezier::Found;
use loop_mode::{Loop, passes};
use refusal::Refusal;
use units::{Progress, Seconds};

fn progress_in(t: Tween) -> f32
    ensures { result ≡ progress_in t }
{
    math::ratio(t.elapsed, t.duration)
}

// The blend at an eased progress, by the same search.
fn blend_in(t: Tween, eased: Result<Found, Refusal>) -> Result<Found, Refusal>
    ensures { result ≡ blend_in t eased }
{
    let found = eased?;
    Ok(found.with_value(blend_at(t, found.value)))
}

// The delay and all passes, in seconds.
fn lasts_for(looping: Loop, delay: f32, duration: f32) -> f32
    ensures { result ≡ lasts looping delay duration }
{
    match looping {
        Loop::Once => delay + duration,
        Loop::Times(n) => delay + duration * std::num::nearest_u32_to_f32(passes(n)),
        Loop::PingPongTimes(n) => delay + duration * std::num::nearest_u32_to_f32(passes(n)),
        Loop::Forever => math::infinity(),
        Loop::PingPong => math::infinity(),
    }
}

// `value` of a tween that is known to be within its limits: an inner step, for runs of many.
#[tactic(auto, unfolding(crate::specs::Calls::value_of))]
pub fn value_in(t: Tween) -> Result<Found, Refusal>
    requires { within_of t ≡ true }
    ensures { result ≡ value_of t }
{
    if t.duration == 0.0 {
        return Ok(Found::plain(t.end));
    }
    let easing = t.easing;
    blend_in(t, easing.apply(Progress(progress_in(t))))
}

impl Tween {
    // The value at this time.
    #[tactic(auto, unfolding(crate::specs::Calls::value_of))]
    pub fn value(self) -> Result<Found, Refusal>
        ensures { result ≡ value_of self }
    {
        if !within(self) {
            return Err(Refusal::RecordBreaksLimit);
        }
        value_in(self)
    }

    // How far along in the pass under way, from 0 to 1, before the easing.
    #[tactic(auto, unfolding(crate::specs::Calls::progress_of))]
    pub fn progress(self) -> Result<Progress, Refusal>
        ensures { result ≡ progress_of self }
    {
        if !within(self) {
            return Err(Refusal::RecordBreaksLimit);
        }
        Ok(Progress(progress_in(self)))
    }

    // The same after the easing, which may leave 0 to 1.
    #[tactic(auto, unfolding(crate::specs::Calls::eased_progress_of))]
    pub fn eased_progress(self) -> Result<Found, Refusal>
        ensures { result ≡ eased_progress_of self }
    {
        if !within(self) {
            return Err(Refusal::RecordBreaksLimit);
        }
        let easing = self.easing;
        easing.apply(Progress(progress_in(self)))
    }

    #[tactic(auto, unfolding(crate::specs::Calls::snapshot_of))]
    pub fn snapshot(self) -> Result<TweenSnapshot, Refusal>
        ensures { result ≡ snapshot_of self }
    {
        if !within(self) {
            return Err(Refusal::RecordBreaksLimit);
        }
        let state = self.state;
        let now = TweenSnapshot {
            elapsed: self.elapsed,
            delay_elapsed: self.delay_elapsed,
            loop_count: self.loop_count,
            ping_pong_reverse: self.ping_pong_reverse,
            state,
        };
        Ok(now)
    }

    // The delay and all passes; infinity in the modes without an end.
    #[tactic(auto, unfolding(crate::specs::Calls::playback_duration_of))]
    pub fn playback_duration(self) -> Result<Seconds, Refusal>
        ensures { result ≡ playback_duration_of self }
    {
        if !within(self) {
            return Err(Refusal::RecordBreaksLimit);
        }
        let looping = self.looping;
        Ok(Seconds(lasts_for(looping, self.delay, self.duration)))
    }
}
