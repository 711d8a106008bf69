// The quick way of a record.
ghost use Rattle.std.specs.Prelude.{◌≡◌, true};
ghost use Rattle.tween.specs.Limits.{within_of};
ghost use Rattle.reader.specs.Inner.{SkimsStep, Skims};

use crate::gaps::gap_before;
use crate::record::{event_in, is_wrong, number_in};
use event_log::Event;
use tween::{Glided, Tween, glide};

// What the common record changes, so that it can be set in place: a step of a tween that runs and goes on
// running, with one fold at most.
#[derive(Clone, Copy)]
pub struct Skimmed {
    pub number: u16,
    pub gap: u16,
    pub glided: Glided,
}

fn skim_step(t: Tween, number: u16, gap: u16, event: Event) -> Option<Skimmed>
    requires { within_of t ≡ true }
    ensures { SkimsStep t number gap event result }
{
    let Event::Step(step) = event else {
        return None;
    };
    let glided = glide(t, step)?;
    Some(Skimmed {
        number,
        gap,
        glided,
    })
}

// None says nothing: `hear` answers every record. sure: the tween is known to be within its limits.
pub fn skim(t: Tween, last: Option<u16>, sure: bool, bytes: [u8; 8]) -> Option<Skimmed>
    requires { sure ≡ true → within_of t ≡ true }
    ensures { Skims t last bytes result }
{
    if !sure {
        return None;
    }
    if is_wrong(bytes) {
        return None;
    }
    let number = number_in(bytes);
    let gap = gap_before(last, number);
    if gap == 65535 {
        return None;
    }
    skim_step(t, number, gap, event_in(bytes))
}
