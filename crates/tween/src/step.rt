// A step in time, of a tween that is known to be within its limits.
ghost use Rattle.std.specs.Prelude.{◌≡◌, ◌≤◌, true};
ghost use Rattle.math.specs.Rounded.{◌⊕◌, ◌⊗◌};
ghost use Rattle.tween.specs.Limits.{within_of};
ghost use Rattle.tween.specs.Update.{after_folds, ran, advanced, wait_of, run_of, by_state, update_of};
ghost use Rattle.tween.specs.Inner.{finish_of};

use crate::answers::Updated;
use crate::record::{Tween, TweenSnapshot, TweenState, with_ends};
use folds::{Folding, fold_all, is_due};
use refusal::{Refusal, Rejected};

fn after_folds(waited: f32, p: Folding) -> TweenSnapshot
    ensures { result ≡ after_folds waited p }
{
    let state = if p.completed {
        TweenState::Completed
    } else {
        TweenState::Running
    };
    TweenSnapshot {
        elapsed: p.elapsed,
        delay_elapsed: waited,
        loop_count: p.loop_count,
        ping_pong_reverse: p.ping_pong_reverse,
        state,
    }
}

fn run_to(t: Tween, waited: f32, p: Folding) -> Result<Updated, Rejected<Tween>>
    ensures { result ≡ ran t waited p }
{
    let now = after_folds(waited, p);
    let next = with_ends(t, t.start, t.end, now);
    Ok(Updated {
        tween: next,
        folds: p.folds,
        running: !p.completed,
    })
}

// The tween runs on with delay_elapsed waited and elapsed e.
#[tactic(auto, unfolding(crate::specs::Update::advanced, crate::specs::Update::folded))]
fn advance(t: Tween, waited: f32, e: f32) -> Result<Updated, Rejected<Tween>>
    requires { t.loop_count ≤ 16777216 }
    ensures { result ≡ advanced t waited e }
{
    let mut first = Folding {
        elapsed: e,
        loop_count: t.loop_count,
        ping_pong_reverse: t.ping_pong_reverse,
        completed: false,
        folds: 0,
    };
    if t.duration == 0.0 {
        first.elapsed = 0.0;
        first.completed = true;
        return run_to(t, waited, first);
    }
    let looping = t.looping;
    let last = fold_all(looping, t.duration, first);
    if is_due(t.duration, last) {
        return Err(Rejected::new(t, Refusal::TooManyFolds));
    }
    run_to(t, waited, last)
}

// How a step begins. The rest of the update is one place, so that it can be inlined.
#[derive(Clone, Copy)]
pub enum Begun {
    // Paused or Completed.
    Still(bool),
    Lost,
    // Within the delay, with this delay_elapsed.
    Waits(f32),
    Runs { waited: f32, elapsed: f32 },
}

// A step x from 0 up while Idle: the delay is not scaled, what is left over of the step is.
fn wait(t: Tween, x: f32) -> Begun
    ensures { finish_of t result ≡ wait_of t x (t.delay_elapsed ⊕ x) }
{
    let waited = t.delay_elapsed + x;
    let lost = math::is_lost(t.delay_elapsed, x, waited);
    if (x > 0.0) & lost {
        return Begun::Lost;
    }
    if waited < t.delay {
        return Begun::Waits(waited);
    }
    Begun::Runs {
        waited,
        elapsed: t.elapsed + (waited - t.delay) * t.time_scale,
    }
}

// A step x from 0 up while Running.
pub fn run(t: Tween, x: f32) -> Begun
    ensures { finish_of t result ≡ run_of t x (t.elapsed ⊕ x ⊗ t.time_scale) }
{
    let add = x * t.time_scale;
    let e = t.elapsed + add;
    let lost = math::is_lost(t.elapsed, add, e);
    if (x > 0.0) & (t.time_scale > 0.0) & (t.elapsed < t.duration) & lost {
        return Begun::Lost;
    }
    Begun::Runs {
        waited: t.delay_elapsed,
        elapsed: e,
    }
}

#[tactic(auto, unfolding(crate::specs::Update::by_state))]
fn begin(t: Tween, x: f32) -> Begun
    ensures { finish_of t result ≡ by_state t.state t x }
{
    let state = t.state;
    match state {
        TweenState::Idle => wait(t, x),
        TweenState::Running => run(t, x),
        TweenState::Paused => Begun::Still(true),
        TweenState::Completed => Begun::Still(false),
    }
}

fn finish(t: Tween, begun: Begun) -> Result<Updated, Rejected<Tween>>
    requires { t.loop_count ≤ 16777216 }
    ensures { result ≡ finish_of t begun }
{
    match begun {
        Begun::Still(running) => Ok(Updated {
            tween: t,
            folds: 0,
            running,
        }),
        Begun::Lost => Err(Rejected::new(t, Refusal::StepLost)),
        Begun::Waits(waited) => {
            let next = Tween {
                delay_elapsed: waited,
                state: TweenState::Idle,
                ..t
            };
            Ok(Updated {
                tween: next,
                folds: 0,
                running: true,
            })
        }
        Begun::Runs { waited, elapsed } => advance(t, waited, elapsed),
    }
}

// `update` of a tween that is known to be within its limits: an inner step, for runs of many.
#[tactic(auto, unfolding(crate::specs::Update::update_of), using(crate::proofs::Bounds::within_count))]
pub fn step_on(t: Tween, step: f32) -> Result<Updated, Rejected<Tween>>
    requires { within_of t ≡ true }
    ensures { result ≡ update_of t step }
{
    if step > 16777216.0 {
        return Err(Rejected::new(t, Refusal::StepTooLong));
    }
    finish(t, begin(t, math::max_zero(step)))
}
