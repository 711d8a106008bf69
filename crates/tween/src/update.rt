// `update`. The common step has a way of its own: of a tween that runs and goes on running, with one
// fold at most.
ghost use Rattle.std.specs.Prelude.{◌≡◌, ◌≤◌, true};
ghost use Rattle.tween.specs.Limits.{within_of};
ghost use Rattle.tween.specs.Update.{update_of};
ghost use Rattle.tween.specs.Inner.{Slides, Glides, placed};

use crate::answers::Updated;
use crate::limits::within;
use crate::record::{Tween, TweenState};
use crate::step::{Begun, run, step_on};
use folds::{Folding, fold_once, is_due};
use refusal::{Refusal, Rejected};

// What the step changes, so that a caller can set it in place: delay_elapsed, and what folding
// changes.
#[derive(Clone, Copy)]
pub struct Glided {
    pub waited: f32,
    pub folding: Folding,
}

impl Glided {
    // In the tween that the step was asked of. The tween is lent, so that a loop copies none.
    pub fn set_in(self, t: &mut Tween)
        ensures { t.new ≡ placed t.old self.waited self.folding }
    {
        t.elapsed = self.folding.elapsed;
        t.delay_elapsed = self.waited;
        t.loop_count = self.folding.loop_count;
        t.ping_pong_reverse = self.folding.ping_pong_reverse;
    }
}

// `advance` where the tween runs on with one fold at most; else None.
fn slide(t: Tween, waited: f32, e: f32) -> Option<Glided>
    requires { t.loop_count ≤ 16777216 }
    ensures { Slides t waited e result }
{
    if t.duration == 0.0 {
        return None;
    }
    let first = Folding {
        elapsed: e,
        loop_count: t.loop_count,
        ping_pong_reverse: t.ping_pong_reverse,
        completed: false,
        folds: 0,
    };
    if !is_due(t.duration, first) {
        return Some(Glided {
            waited,
            folding: first,
        });
    }
    let looping = t.looping;
    let once = fold_once(looping, t.duration, first);
    if once.completed {
        return None;
    }
    if is_due(t.duration, once) {
        return None;
    }
    if once.loop_count > 16777216 {
        return None;
    }
    Some(Glided {
        waited,
        folding: once,
    })
}

// An inner step, for runs of many. None says nothing: `step_on` answers every step.
pub fn glide(t: Tween, step: f32) -> Option<Glided>
    requires { within_of t ≡ true }
    ensures { Glides t step result }
{
    let state = t.state;
    let TweenState::Running = state else {
        return None;
    };
    if step > 16777216.0 {
        return None;
    }
    let Begun::Runs { waited, elapsed } = run(t, math::max_zero(step)) else {
        return None;
    };
    slide(t, waited, elapsed)
}

impl Tween {
    // Moves on by step seconds. Refused: 4, 5 for a step above 16,777,216, 6 for a step that is lost, 7 for one that needs more than 4,096 folds.
    pub fn update(self, step: f32) -> Result<Updated, Rejected<Tween>>
        ensures { result ≡ update_of self step }
    {
        if !within(self) {
            return Err(Rejected::new(self, Refusal::RecordBreaksLimit));
        }
        match glide(self, step) {
            Some(glided) => {
                let mut t = self;
                glided.set_in(&mut t);
                Ok(Updated {
                    tween: t,
                    folds: glided.folding.folds,
                    running: true,
                })
            }
            None => step_on(self, step),
        }
    }
}
