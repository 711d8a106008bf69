// What moves in a track within its limits, and where it stands, by the parts that count. base is the
// last time, which is what one pass takes.
ghost use Rattle.std.specs.Prelude.{◌≡◌};
ghost use Rattle.keyframe.specs.Limits.{end_of};
ghost use Rattle.keyframe.specs.Playback.{playback_of};
ghost use Rattle.keyframe.specs.Stepping.{final_of, lost_of};
ghost use Rattle.keyframe.specs.Clock.{active_at, clock_of, progress_at, seek_of, tick_of, tick_to, ticked_at};

use crate::limits::end_of;
use crate::playback::{phase, playback};
use crate::types::{Clock, Ticked};
use loop_mode::Loop;
use refusal::Refusal;

impl Clock {
    pub fn new(elapsed: f32, loop_count: u32, complete: bool) -> Clock
        ensures { result ≡ clock_of elapsed loop_count complete }
    {
        Clock {
            elapsed,
            loop_count,
            complete,
        }
    }
}

fn is_lost(elapsed: f32, step: f32) -> bool
    ensures { result ≡ lost_of elapsed step }
{
    (0.0 < step) & math::is_lost(elapsed, step, elapsed + step)
}

// loop_count on completion: the passes, but for Once, which keeps the count that it has.
#[tactic(auto, unfolding(crate::specs::Stepping::final_of))]
fn final_count(looping: Loop, count: u32) -> u32
    ensures { result ≡ final_of looping count }
{
    match looping {
        Loop::Times(n) | Loop::PingPongTimes(n) => loop_mode::passes(n),
        Loop::Once | Loop::Forever | Loop::PingPong => count,
    }
}

fn ran(elapsed: f32, loop_count: u32, complete: bool) -> Result<Ticked, Refusal>
    ensures { result ≡ ticked_at elapsed loop_count complete }
{
    let clock = Clock::new(elapsed, loop_count, complete);
    Ok(Ticked {
        clock,
        running: !complete,
    })
}

// At `sum` seconds, or at the end. loop_count goes by what was there before the cut.
fn advance(looping: Loop, base: f32, sum: f32) -> Result<Ticked, Refusal>
    ensures { result ≡ tick_to (end_of looping base) looping base sum }
{
    let count = math::whole_part(sum / base);
    match end_of(looping, base) {
        Some(total) => {
            if total <= sum {
                return ran(total, final_count(looping, count), true);
            }
            ran(sum, count, false)
        }
        None => {
            if sum > 16777216.0 {
                return Err(Refusal::ElapsedTooLong);
            }
            ran(sum, count, false)
        }
    }
}

// A step of dt seconds. Refused: 5, 6, 8.
pub fn tick(
    frames: usize,
    base: f32,
    looping: Loop,
    clock: Clock,
    dt: f32,
) -> Result<Ticked, Refusal>
    ensures { result ≡ tick_of frames base looping clock dt }
{
    if dt > 16777216.0 {
        return Err(Refusal::StepTooLong);
    }
    if (frames < 2) | clock.complete {
        return Ok(Ticked {
            clock,
            running: false,
        });
    }
    let step = math::max_zero(dt);
    if is_lost(clock.elapsed, step) {
        return Err(Refusal::StepLost);
    }
    advance(looping, base, clock.elapsed + step)
}

// At a progress p.
pub fn seek(looping: Loop, base: f32, p: f32) -> Clock
    ensures { result ≡ seek_of (end_of looping base) base p }
{
    let end = end_of(looping, base);
    // What a progress of 1 stands for.
    let span = end.unwrap_or(base);
    if span == 0.0 {
        return Clock::new(0.0, 0, true);
    }
    let elapsed = span * p;
    let count = math::whole_part(elapsed / frames::span_of(base));
    Clock::new(elapsed, count, end.is_some() & (1.0 <= p))
}

// The time within a pass. Four parameters and no struct of them: each caller has them apart, in a track
// or in words, and would build one for a single call.
pub fn active_at(looping: Loop, complete: bool, elapsed: f32, base: f32) -> f32
    ensures { result ≡ active_at looping complete elapsed base }
{
    if base == 0.0 {
        return 0.0;
    }
    phase(looping, complete, elapsed, base)
}

pub fn progress_at(looping: Loop, complete: bool, elapsed: f32, base: f32) -> f32
    ensures { result ≡ progress_at (end_of looping base) looping complete elapsed base }
{
    match end_of(looping, base) {
        Some(total) => math::ratio(elapsed, total),
        None => math::ratio(active_at(looping, complete, elapsed, base), base),
    }
}

// All passes.
pub fn playback_at(looping: Loop, base: f32) -> f32
    ensures { result ≡ playback_of (end_of looping base) base }
{
    playback(end_of(looping, base), base)
}
