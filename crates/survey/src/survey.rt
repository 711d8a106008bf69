// The survey of a log, a part at a time.
ghost use Rattle.std.specs.Prelude.{◌≡◌};
ghost use Rattle.reader.specs.Reading.{begin_of};
ghost use Rattle.reader.specs.Records.{records_of};
ghost use Rattle.survey.specs.Survey.{zero_counts, counted_of, survey_of};
ghost use Rattle.refusal.specs.Refusing.{done};

use crate::lists::{Lists, seen_at};
use reader::hear::{Heard, hear};
use reader::{Replay, capped_add};
use refusal::Refusal;
use tween::Tween;

// How many records were read, repeats too; how many of them have some missing before them, repeat the one
// before, and made more than one fold. Each stays at 18,446,744,073,709,551,615 where it would pass it.
#[derive(Clone, Copy)]
pub struct Counts {
    pub records: u64,
    pub gaps: u64,
    pub repeats: u64,
    pub many: u64,
}

// outcome: whether a refusal stopped it, and which.
#[derive(Clone, Copy)]
pub struct Survey {
    pub reached: Replay,
    pub counts: Counts,
    pub lists: Lists,
    pub outcome: Result<(), Refusal>,
}

// Nothing is read yet.
pub fn begin(t: Tween) -> Survey
    ensures { (result.reached ≡ begin_of t) × (result.counts ≡ zero_counts) × (result.outcome ≡ done) }
{
    let reached = Replay {
        tween: t,
        last: None,
        missing: 0,
        folds: 0,
    };
    let counts = Counts {
        records: 0,
        gaps: 0,
        repeats: 0,
        many: 0,
    };
    Survey {
        reached,
        counts,
        lists: Lists::empty(),
        outcome: Ok(()),
    }
}

// The counts with one record more.
fn counted(k: Counts, gap: u16, made: u64) -> Counts
    ensures { result ≡ counted_of k gap made }
{
    let repeats = gap == 65535;
    Counts {
        records: capped_add(k.records, 1),
        gaps: capped_add(k.gaps, ((gap > 0) & !repeats) as u64),
        repeats: capped_add(k.repeats, repeats as u64),
        many: capped_add(k.many, (made > 1) as u64),
    }
}

// Whether a list changes by a record. The lists are long, and a record that changes none is quick.
fn is_listed(gap: u16, made: u64, least: u64, counts: Counts) -> bool {
    if made > least {
        return true;
    }
    if (made > 1) & (counts.many < 20) {
        return true;
    }
    (gap > 0) & ((counts.gaps < 20) | (counts.repeats < 20))
}

// Goes on with the whole records that follow, up to one that is refused.
pub fn survey_on(first: Survey, records: &[u8]) -> Survey
    ensures reached { result.reached ≡ (survey_of (records_of records.now) first.reached first.counts).replay }
    ensures counts { result.counts ≡ (survey_of (records_of records.now) first.reached first.counts).counts }
    ensures outcome { result.outcome ≡ (survey_of (records_of records.now) first.reached first.counts).outcome }
{
    let mut reached = first.reached;
    let mut counts = first.counts;
    let mut lists = first.lists;
    for i in 0..records.len() / 8 {
        let bytes = reader::record_at(records, i);
        match hear(reached, bytes) {
            Ok(Heard { gap, reached: next }) => {
                let made = next.folds.saturating_sub(reached.folds);
                if is_listed(gap, made, lists.least, counts) {
                    lists.note(seen_at(counts.records, bytes, reached.last, gap, made));
                }
                counts = counted(counts, gap, made);
                reached = next;
            }
            Err(refusal) => {
                return Survey {
                    reached,
                    counts,
                    lists,
                    outcome: Err(refusal),
                };
            }
        }
    }
    Survey {
        reached,
        counts,
        lists,
        outcome: Ok(()),
    }
}
