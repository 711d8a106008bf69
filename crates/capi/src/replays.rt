// The calls that read an event log.
ghost use Rattle.std.specs.Prelude.{◌≡◌};
ghost use Rattle.steps.specs.Course.{outcome_number};
ghost use Rattle.capi.specs.Answers.{answering};
ghost use Rattle.capi.specs.Replays.{last_from, last_word, reached_words, replayed_words, replayed_reached, lax_replay, lax_replay_on};

use crate::answers::{UNKNOWN_WORD, outcome_number};
use reader::{Replay, Replayed, replay, replay_on};
use words::{store_tween, tween_in, tween_of};

// The number of the last record that was read, 65,536 where none was.
fn last_of(last: u64) -> Option<Option<u16>>
    ensures { result ≡ last_from last }
{
    if last < 65536 {
        return Some(Some(last as u16));
    }
    if last == 65536 {
        return Some(None);
    }
    None
}

fn last_word(last: Option<u16>) -> u64
    ensures { result ≡ last_word last }
{
    match last {
        None => 65536,
        Some(number) => number as u64,
    }
}

// The records missing, the folds, the last number, and how many records were read.
fn counts(replay: Replay, done: usize) -> [u64; 4]
    ensures { result ≡ reached_words replay done }
{
    let last = replay.last;
    [replay.missing, replay.folds, last_word(last), done as u64]
}

// Where no record was read and the number is not 0, nothing is written. sound: whether the tween that
// came was within its limits.
fn put_replayed(sound: bool, replayed: Replayed, w: &mut [u32; 18], reached: &mut [u64; 4]) -> u32
    ensures number { result ≡ outcome_number replayed.outcome }
    ensures words { w.new ≡ replayed_words sound w.old replayed }
    ensures place { reached.new ≡ replayed_reached reached.old replayed }
{
    // C's answer is the number, so that is what is asked below.
    let outcome = replayed.outcome;
    let number = outcome_number(outcome);
    let now = replayed.reached;
    if replayed.done == 0 {
        if number == 0 {
            *reached = counts(now, replayed.done);
        }
        return number;
    }
    if sound {
        let tween = now.tween;
        store_tween(w, tween);
        *reached = counts(now, replayed.done);
        return number;
    }
    *reached = counts(now, replayed.done);
    number
}

pub fn lax_log_replay(
    w: &mut [u32; 18],
    log: &[u8],
    gaps: &mut [u16],
    reached: &mut [u64; 4],
) -> u32
    ensures { answering result (record { words = w.new; gaps = gaps.new; reached = reached.new }) ≡ lax_replay w.old log.now gaps.old reached.old }
{
    match tween_of(tween_in(w)) {
        Some(tween) => {
            let sound = tween::within(tween);
            put_replayed(sound, replay(tween, log, gaps), w, reached)
        }
        None => UNKNOWN_WORD,
    }
}

pub fn lax_log_replay_on(
    w: &mut [u32; 18],
    records: &[u8],
    gaps: &mut [u16],
    reached: &mut [u64; 4],
) -> u32
    ensures { answering result (record { words = w.new; gaps = gaps.new; reached = reached.new }) ≡ lax_replay_on w.old records.now gaps.old reached.old }
{
    let Some(tween) = tween_of(tween_in(w)) else {
        return UNKNOWN_WORD;
    };
    let Some(last) = last_of(reached[2]) else {
        return UNKNOWN_WORD;
    };
    let begun = Replay {
        tween,
        last,
        missing: reached[0],
        folds: reached[1],
    };
    let sound = tween::within(tween);
    put_replayed(sound, replay_on(begun, records, gaps), w, reached)
}
