// The calls that change a tween, but for update. Each is refused 4 where the tween breaks a limit.
ghost use Rattle.std.specs.Prelude.{◌≡◌};
ghost use Rattle.tween.specs.Calls.{first_state, woken, paused, resumed, reset_of, seek_of, reverse_of, pause_of, resume_of};

use crate::limits::within;
use crate::record::{Tween, TweenState};
use refusal::{Refusal, Rejected};
use units::Progress;

fn woken_state(state: TweenState) -> TweenState
    ensures { result ≡ woken state }
{
    match state {
        TweenState::Completed => TweenState::Running,
        TweenState::Idle | TweenState::Running | TweenState::Paused => state,
    }
}

fn paused_state(state: TweenState) -> TweenState
    ensures { result ≡ paused state }
{
    match state {
        TweenState::Running => TweenState::Paused,
        TweenState::Idle | TweenState::Paused | TweenState::Completed => state,
    }
}

fn resumed_state(state: TweenState) -> TweenState
    ensures { result ≡ resumed state }
{
    match state {
        TweenState::Paused => TweenState::Running,
        TweenState::Idle | TweenState::Running | TweenState::Completed => state,
    }
}

fn first_state(delay: f32) -> TweenState
    ensures { result ≡ first_state delay }
{
    if delay > 0.0 {
        TweenState::Idle
    } else {
        TweenState::Running
    }
}

impl Tween {
    // Back to the start of the delay.
    #[tactic(auto, unfolding(crate::specs::Calls::reset_of))]
    pub fn reset(self) -> Result<Tween, Rejected<Tween>>
        ensures { result ≡ reset_of self }
    {
        if !within(self) {
            return Err(Rejected::new(self, Refusal::RecordBreaksLimit));
        }
        Ok(Tween {
            elapsed: 0.0,
            delay_elapsed: 0.0,
            loop_count: 0,
            ping_pong_reverse: false,
            state: first_state(self.delay),
            ..self
        })
    }

    // To a place in the pass under way; t is clamped to 0..1. Refused: 1 where t is NaN.
    #[tactic(auto, unfolding(crate::specs::Calls::seek_of))]
    pub fn seek(self, t: Progress) -> Result<Tween, Rejected<Tween>>
        ensures { result ≡ seek_of self t.0 }
    {
        if !within(self) {
            return Err(Rejected::new(self, Refusal::RecordBreaksLimit));
        }
        if math::is_nan(t.0) {
            return Err(Rejected::new(self, Refusal::ProgressIsNan));
        }
        let e = math::max_zero(math::clamp01(t.0) * self.duration);
        Ok(Tween {
            elapsed: e,
            state: woken_state(self.state),
            ..self
        })
    }

    // Exchanges start and end, and mirrors elapsed, so that the value stays where it is in Linear.
    #[tactic(auto, unfolding(crate::specs::Calls::reverse_of))]
    pub fn reverse(self) -> Result<Tween, Rejected<Tween>>
        ensures { result ≡ reverse_of self }
    {
        if !within(self) {
            return Err(Rejected::new(self, Refusal::RecordBreaksLimit));
        }
        let e = math::clamp(self.duration - self.elapsed, 0.0, self.duration);
        Ok(Tween {
            start: self.end,
            end: self.start,
            elapsed: e,
            state: woken_state(self.state),
            ..self
        })
    }

    // Acts on a Running tween alone: a pause within the delay does nothing.
    #[tactic(auto, unfolding(crate::specs::Calls::pause_of))]
    pub fn pause(self) -> Result<Tween, Rejected<Tween>>
        ensures { result ≡ pause_of self }
    {
        if !within(self) {
            return Err(Rejected::new(self, Refusal::RecordBreaksLimit));
        }
        Ok(Tween {
            state: paused_state(self.state),
            ..self
        })
    }

    // Acts on a Paused tween alone.
    #[tactic(auto, unfolding(crate::specs::Calls::resume_of))]
    pub fn resume(self) -> Result<Tween, Rejected<Tween>>
        ensures { result ≡ resume_of self }
    {
        if !within(self) {
            return Err(Rejected::new(self, Refusal::RecordBreaksLimit));
        }
        Ok(Tween {
            state: resumed_state(self.state),
            ..self
        })
    }
}
