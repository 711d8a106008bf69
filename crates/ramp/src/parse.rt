// A whole ramp.
ghost use Rattle.std.specs.Prelude.{◌≡◌, true, Ok};
ghost use Rattle.tween.specs.declared.record.Tween.{Tween};
ghost use Rattle.tween.specs.Limits.{within_of};
ghost use Rattle.tween.specs.Calls.{reset_of};
ghost use Rattle.ramp.specs.Ramps.{IsReset};

use crate::settings::Settings;
use lines::{Fault, Lines, Word};
use tween::Tween;

// A ramp that breaks a limit is handed on as it is: every call refuses it.
fn reset(tween: Tween) -> Tween
    ensures { within_of result ≡ true → (t : Tween) × (reset_of t ≡ Ok result) }
{
    match tween.reset() {
        Ok(u) => u,
        Err(rejected) => rejected.value,
    }
}

// start, end and duration have to be given; delay is 0 otherwise, scale 1, mode Once and easing Linear.
pub fn parse_ramp(text: &[u8]) -> Result<Tween, Fault>
    ensures { IsReset result }
{
    let mut settings = Settings::default();
    let mut lines = Lines::of(text);
    for line in &mut lines {
        settings.take(line).map_err(|mistake| Fault {
            line: line.number,
            mistake,
        })?;
    }
    let end = Word {
        from: lines.place,
        to: lines.place,
    };
    let tween = settings.tween(end).map_err(|mistake| Fault {
        line: lines.number,
        mistake,
    })?;
    Ok(reset(tween))
}
