// Where a track stands.
ghost use Rattle.std.specs.Prelude.{◌≡◌, ◌≤◌};
ghost use Rattle.keyframe.specs.Playback.{bounce_of, phase_of, active_of, active_time_of, duration_in, playback_of, playback_in, playback_progress, progress_of, done_of, complete_of};

use crate::clock::active_at;
use crate::limits::{end_of, last_time};
use crate::types::Track;
use loop_mode::Loop;
use refusal::Refusal;
use units::{Progress, Seconds};

fn bounce(cycle: f32, base: f32) -> f32
    ensures { result ≡ bounce_of cycle base }
{
    if cycle <= base {
        return cycle;
    }
    base * 2.0 - cycle
}

// The time within a pass that takes `base` seconds.
#[tactic(auto, unfolding(crate::specs::Playback::phase_of))]
pub fn phase(looping: Loop, complete: bool, elapsed: f32, base: f32) -> f32
    ensures { result ≡ phase_of looping complete elapsed base }
{
    match looping {
        Loop::Once => frames::cut(elapsed, base),
        Loop::Times(_) => {
            if complete {
                return base;
            }
            math::remainder(elapsed, base)
        }
        Loop::Forever => math::remainder(elapsed, base),
        Loop::PingPong | Loop::PingPongTimes(_) => {
            bounce(math::remainder(elapsed, base * 2.0), base)
        }
    }
}

pub fn active(track: Track) -> f32
    requires { track.count ≤ 64 }
    ensures { result ≡ active_of track }
{
    let looping = track.looping;
    active_at(looping, track.complete, track.elapsed, last_time(track))
}

pub fn playback(end: Option<f32>, base: f32) -> f32
    ensures { result ≡ playback_of end base }
{
    match end {
        Some(total) => total,
        None => {
            if base == 0.0 {
                return 0.0;
            }
            math::infinity()
        }
    }
}

fn along(end: Option<f32>, track: Track) -> f32
    requires { track.count ≤ 64 }
    ensures { result ≡ playback_progress end track }
{
    match end {
        Some(total) => math::ratio(track.elapsed, total),
        None => math::ratio(active(track), last_time(track)),
    }
}

pub fn is_done(track: Track) -> bool
    ensures { result ≡ done_of track }
{
    (track.count < 2) | track.complete
}

// Each call is refused 4 where the track breaks a limit.
impl Track {
    pub fn active_time(self) -> Result<Seconds, Refusal>
        ensures { result ≡ active_time_of self }
    {
        if self.is_within_limits() {
            return Ok(Seconds(active(self)));
        }
        Err(Refusal::RecordBreaksLimit)
    }

    // One pass, which is the last frame's time.
    pub fn duration(self) -> Result<Seconds, Refusal>
        ensures { result ≡ duration_in self }
    {
        if self.is_within_limits() {
            return Ok(Seconds(last_time(self)));
        }
        Err(Refusal::RecordBreaksLimit)
    }

    // All passes.
    pub fn playback_duration(self) -> Result<Seconds, Refusal>
        ensures { result ≡ playback_in self }
    {
        if self.is_within_limits() {
            let looping = self.looping;
            let base = last_time(self);
            let total = playback(end_of(looping, base), base);
            return Ok(Seconds(total));
        }
        Err(Refusal::RecordBreaksLimit)
    }

    pub fn progress(self) -> Result<Progress, Refusal>
        ensures { result ≡ progress_of self }
    {
        if self.is_within_limits() {
            let looping = self.looping;
            let end = end_of(looping, last_time(self));
            return Ok(Progress(along(end, self)));
        }
        Err(Refusal::RecordBreaksLimit)
    }

    // A track with fewer than two frames counts as complete.
    pub fn is_complete(self) -> Result<bool, Refusal>
        ensures { result ≡ complete_of self }
    {
        if self.is_within_limits() {
            return Ok(is_done(self));
        }
        Err(Refusal::RecordBreaksLimit)
    }
}
