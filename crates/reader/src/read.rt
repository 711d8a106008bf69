// The calls that read a log.
ghost use Rattle.std.specs.Prelude.{◌≡◌, ◌+◌, ◌*◌, ◌/◌, ◌%◌, ◌≤◌, length, take, drop};
ghost use Rattle.steps.specs.Course.{over};
ghost use Rattle.reader.specs.Records.{records_of};
ghost use Rattle.reader.specs.Reading.{reading_of, read_on_of, replay_of, answer_of};

use crate::gaps::capped_add;
use crate::hear::{Heard, Replay, hear};
use crate::skim::{Skimmed, skim};
use event_log::{has_mark, has_version};
use refusal::Refusal;
use tween::{Tween, within};

// done is how many records were read: where the replay stopped, the place of the record that was
// refused. reached is how far it had come before that record.
#[derive(Clone, Copy)]
pub struct Replayed {
    pub reached: Replay,
    pub done: usize,
    pub outcome: Result<(), Refusal>,
}

fn so_far(tween: Tween, last: Option<u16>, missing: u64, folds: u64) -> Replay
    ensures { result ≡ record { tween = tween; last = last; missing = missing; folds = folds } }
{
    Replay {
        tween,
        last,
        missing,
        folds,
    }
}

fn answer(reached: Replay, done: usize, outcome: Result<(), Refusal>) -> Replayed
    ensures { result ≡ record { reached = reached; done = done; outcome = outcome } }
{
    Replayed {
        reached,
        done,
        outcome,
    }
}

fn stopped(reached: Replay, done: usize, refusal: Refusal) -> Replayed
    ensures { result ≡ record { reached = reached; done = done; outcome = Err refusal } }
{
    answer(reached, done, Err(refusal))
}

pub fn record_at(records: &[u8], i: usize) -> [u8; 8]
    requires { i * 8 + 8 ≤ length records.now }
    ensures { result ≡ take 8 (drop (i * 8) records.now) }
{
    let at = i * 8;
    [
        records[at],
        records[at + 1],
        records[at + 2],
        records[at + 3],
        records[at + 4],
        records[at + 5],
        records[at + 6],
        records[at + 7],
    ]
}

fn read_all(first: Replay, records: &[u8], gaps: &mut [u16]) -> Replayed
    requires { (length records.now % 8 ≡ 0) × (length records.now / 8 ≤ length gaps.old) }
    ensures answer { result ≡ answer_of (reading_of (records_of records.now) first) }
    ensures list { gaps.new ≡ over (reading_of (records_of records.now) first).gaps gaps.old }
{
    let mut t = first.tween;
    let mut last = first.last;
    let mut missing = first.missing;
    let mut folds = first.folds;
    let mut sure = within(t);
    let mut i: usize = 0;
    // No `for`: its turns join the two ways of a record, and the proof over the join did not close.
    while i < records.len() / 8 {
        let bytes = record_at(records, i);
        match skim(t, last, sure, bytes) {
            Some(
                Skimmed {
                    number,
                    gap,
                    glided,
                },
            ) => {
                glided.set_in(&mut t);
                last = Some(number);
                missing = capped_add(missing, gap as u64);
                folds = capped_add(folds, glided.folding.folds as u64);
                gaps[i] = gap;
                i += 1;
            }
            None => {
                let reached = so_far(t, last, missing, folds);
                match hear(reached, bytes) {
                    Ok(Heard { gap, reached: next }) => {
                        t = next.tween;
                        last = next.last;
                        missing = next.missing;
                        folds = next.folds;
                        sure = within(t);
                        gaps[i] = gap;
                        i += 1;
                    }
                    Err(refusal) => return stopped(reached, i, refusal),
                }
            }
        }
    }
    answer(so_far(t, last, missing, folds), i, Ok(()))
}

// Goes on with the records that follow. What is missing before each goes into the front of gaps.
// Refused: 17 where the bytes are not whole records; 12 where gaps is shorter than they are many. It
// stops at the first record that is refused.
pub fn replay_on(reached: Replay, records: &[u8], gaps: &mut [u16]) -> Replayed
    ensures answer { result ≡ answer_of (read_on_of reached records.now gaps.old) }
    ensures list { gaps.new ≡ over (read_on_of reached records.now gaps.old).gaps gaps.old }
{
    if records.len() % 8 != 0 {
        return stopped(reached, 0, Refusal::WrongLength);
    }
    if gaps.len() < records.len() / 8 {
        return stopped(reached, 0, Refusal::OutputTooShort);
    }
    read_all(reached, records, gaps)
}

// A log from its head on, replayed into a tween. Refused: 4; 15; 16; then as `replay_on`.
pub fn replay(t: Tween, log: &[u8], gaps: &mut [u16]) -> Replayed
    ensures answer { result ≡ answer_of (replay_of t log.now gaps.old) }
    ensures list { gaps.new ≡ over (replay_of t log.now gaps.old).gaps gaps.old }
{
    let reached = Replay {
        tween: t,
        last: None,
        missing: 0,
        folds: 0,
    };
    if !within(t) {
        return stopped(reached, 0, Refusal::RecordBreaksLimit);
    }
    if !has_mark(log) {
        return stopped(reached, 0, Refusal::WrongMark);
    }
    if !has_version(log) {
        return stopped(reached, 0, Refusal::UnknownVersion);
    }
    replay_on(reached, &log[5..], gaps)
}
