// The common steps of a run, one behind the other.
ghost use Rattle.std.specs.Prelude.{◌≡◌, true, ◌≤◌, length};
ghost use Rattle.tween.specs.Limits.{within_of};
ghost use Rattle.steps.specs.Inner.{ReachesOn};

use tween::{Tween, glide, value_by};

// As far as the common steps went: the tween behind them, the place of the step that is next, and how many
// values of the run are not settled so far.
#[derive(Clone, Copy)]
pub struct Stretch {
    pub tween: Tween,
    pub next: usize,
    pub unsettled: usize,
}

// From step `from` on, while `glide` answers: no step of another kind is tried here, so that what the
// common step does not change stays in registers.
pub fn glide_on(
    first: Tween,
    from: usize,
    before: usize,
    steps: &[f32],
    values: &mut [f32],
    folds: &mut [u32],
) -> Stretch
    requires { (within_of first ≡ true) × (length steps.now ≤ length values.old) × (length steps.now ≤ length folds.old) × (from ≤ length steps.now) × (before ≤ from) }
    ensures { ReachesOn steps.now values.old folds.old first before from values.new folds.new result }
{
    let easing = first.easing;
    let mut t = first;
    let mut unsettled = before;
    for i in from..steps.len() {
        let Some(glided) = glide(t, steps[i]) else {
            return Stretch {
                tween: t,
                next: i,
                unsettled,
            };
        };
        glided.set_in(&mut t);
        let found = value_by(easing, t);
        values[i] = found.value;
        folds[i] = glided.folding.folds;
        unsettled += !found.settled as usize;
    }
    Stretch {
        tween: t,
        next: steps.len(),
        unsettled,
    }
}
