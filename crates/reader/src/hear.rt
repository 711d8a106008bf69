// One record of a log, heard.
ghost use Rattle.std.specs.Prelude.{◌≡◌};
ghost use Rattle.reader.specs.Hearing.{played_of, by_change, heard_of};

use crate::gaps::{capped_add, gap_before};
use crate::record::{event_in, is_wrong, number_in};
use event_log::Event;
use refusal::{Refusal, Rejected};
use tween::Tween;

// How far a replay has come. missing is how many records are known to be missing, repeats apart; folds
// those of all updates. Both stay at 18,446,744,073,709,551,615 where they would pass it.
#[derive(Clone, Copy)]
pub struct Replay {
    pub tween: Tween,
    pub last: Option<u16>,
    pub missing: u64,
    pub folds: u64,
}

// The tween behind a call, and the folds of an update.
#[derive(Clone, Copy)]
pub struct Played {
    pub tween: Tween,
    pub folds: u32,
}

// What is missing before a record, and how far the replay has come with it.
#[derive(Clone, Copy)]
pub struct Heard {
    pub gap: u16,
    pub reached: Replay,
}

fn changed(answer: Result<Tween, Rejected<Tween>>) -> Result<Played, Refusal>
    ensures { result ≡ by_change answer }
{
    let tween = answer?;
    Ok(Played { tween, folds: 0 })
}

fn play(t: Tween, event: Event) -> Result<Played, Refusal>
    ensures { result ≡ played_of t event }
{
    match event {
        Event::Step(step) => {
            let updated = t.update(step)?;
            Ok(Played {
                tween: updated.tween,
                folds: updated.folds,
            })
        }
        Event::Pause => changed(t.pause()),
        Event::Resume => changed(t.resume()),
        Event::Reset => changed(t.reset()),
    }
}

// A record that is the one before again is not replayed.
pub fn hear(reached: Replay, bytes: [u8; 8]) -> Result<Heard, Refusal>
    ensures { result ≡ heard_of reached bytes }
{
    let number = number_in(bytes);
    let last = reached.last;
    let gap = gap_before(last, number);
    if is_wrong(bytes) {
        return Err(Refusal::WrongRecord);
    }
    if gap == 65535 {
        return Ok(Heard { gap, reached });
    }
    let t = reached.tween;
    let played = play(t, event_in(bytes))?;
    let next = Replay {
        tween: played.tween,
        last: Some(number),
        missing: capped_add(reached.missing, gap as u64),
        folds: capped_add(reached.folds, played.folds as u64),
    };
    Ok(Heard { gap, reached: next })
}
