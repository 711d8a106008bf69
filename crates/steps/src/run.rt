// The run.
ghost use Rattle.std.specs.Prelude.{◌≡◌, true, ◌≤◌, length};
ghost use Rattle.tween.specs.Limits.{within_of};
ghost use Rattle.steps.specs.Course.{course_of, run_of, answer_of, over};

use crate::gliding::glide_on;
use crate::take::{Taken, take};
use refusal::Refusal;
use tween::{Tween, within};

// done is how many steps were taken: where the run stopped, the place of the step that was refused. The
// tween is as it stood before that step. unsettled is how many of the values written are not settled.
#[derive(Clone, Copy)]
pub struct Run {
    pub tween: Tween,
    pub done: usize,
    pub unsettled: usize,
    pub outcome: Result<(), Refusal>,
}

fn answer(tween: Tween, done: usize, unsettled: usize, outcome: Result<(), Refusal>) -> Run
    ensures { result ≡ record { tween = tween; done = done; unsettled = unsettled; outcome = outcome } }
{
    Run {
        tween,
        done,
        unsettled,
        outcome,
    }
}

fn run_on(first: Tween, steps: &[f32], values: &mut [f32], folds: &mut [u32]) -> Run
    requires { (within_of first ≡ true) × (length steps.now ≤ length values.old) × (length steps.now ≤ length folds.old) }
    ensures answer { result ≡ answer_of (course_of steps.now first) }
    ensures value { values.new ≡ over (course_of steps.now first).values values.old }
    ensures fold { folds.new ≡ over (course_of steps.now first).folds folds.old }
{
    let mut t = first;
    let mut unsettled: usize = 0;
    let mut i: usize = 0;
    // No `for`: a stretch takes i on by many steps at once.
    while i < steps.len() {
        let stretch = glide_on(t, i, unsettled, steps, values, folds);
        t = stretch.tween;
        i = stretch.next;
        unsettled = stretch.unsettled;
        if i < steps.len() {
            match take(t, steps[i]) {
                Ok(
                    Taken {
                        tween,
                        found,
                        folds: made,
                    },
                ) => {
                    values[i] = found.value;
                    folds[i] = made;
                    unsettled += !found.settled as usize;
                    t = tween;
                    i += 1;
                }
                Err(refusal) => return answer(t, i, unsettled, Err(refusal)),
            }
        }
    }
    answer(t, i, unsettled, Ok(()))
}

// The value after each step and the folds of each, into the fronts of values and folds. Refused: 4; 12
// where a lent list is shorter than the steps. It stops at the first step that is refused.
pub fn run_steps(t: Tween, steps: &[f32], values: &mut [f32], folds: &mut [u32]) -> Run
    ensures answer { result ≡ answer_of (run_of t steps.now values.old folds.old) }
    ensures value { values.new ≡ over (run_of t steps.now values.old folds.old).values values.old }
    ensures fold { folds.new ≡ over (run_of t steps.now values.old folds.old).folds folds.old }
{
    if !within(t) {
        return answer(t, 0, 0, Err(Refusal::RecordBreaksLimit));
    }
    if values.len() < steps.len() {
        return answer(t, 0, 0, Err(Refusal::OutputTooShort));
    }
    if folds.len() < steps.len() {
        return answer(t, 0, 0, Err(Refusal::OutputTooShort));
    }
    run_on(t, steps, values, folds)
}
