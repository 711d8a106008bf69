// One step of a run.
ghost use Rattle.std.specs.Prelude.{◌≡◌, true};
ghost use Rattle.tween.specs.Limits.{within_of};
ghost use Rattle.steps.specs.Course.{step_of};

use bezier::Found;
use refusal::Refusal;
use tween::{Tween, step_on, value_by};

// The tween behind a step, its value with the search behind it, and the folds.
#[derive(Clone, Copy)]
pub struct Taken {
    pub tween: Tween,
    pub found: Found,
    pub folds: u32,
}

// An update, and the value behind it.
pub fn take(t: Tween, step: f32) -> Result<Taken, Refusal>
    requires { within_of t ≡ true }
    ensures { result ≡ step_of t step }
{
    let updated = step_on(t, step)?;
    let tween = updated.tween;
    // An update keeps every other limit.
    if tween.loop_count > 16777216 {
        return Err(Refusal::RecordBreaksLimit);
    }
    let easing = tween.easing;
    Ok(Taken {
        tween,
        found: value_by(easing, tween),
        folds: updated.folds,
    })
}
