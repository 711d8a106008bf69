// What the numbers show, and how a report ends.
ghost use Rattle.std.specs.Prelude.{◌≡◌};
ghost use Rattle.audit.specs.Judged.{late_of, earlier_of, loss_of, end_of};

use crate::ending::End;
use refusal::Refusal;

// Whether the first record, by its number, is not the first of its log.
pub fn begins_late(first: Option<u16>) -> bool
    ensures { result ≡ late_of first }
{
    match first {
        Some(number) => number > 0,
        None => false,
    }
}

fn earlier(gap: Option<u64>, repeat: Option<u64>) -> Option<u64>
    ensures { result ≡ earlier_of gap repeat }
{
    match (gap, repeat) {
        (Some(gap), Some(repeat)) => Some(if gap < repeat { gap } else { repeat }),
        _ => gap.or(repeat),
    }
}

// The place of the first record behind what is missing or may be. gap and repeat are the places of the first
// gap and the first repeat.
pub fn loss_from(first: Option<u16>, gap: Option<u64>, repeat: Option<u64>) -> Option<u64>
    ensures { result ≡ loss_of first gap repeat }
{
    if begins_late(first) {
        return Some(0);
    }
    earlier(gap, repeat)
}

// failed: a read failed.
pub fn end_of(
    failed: bool,
    outcome: Result<(), Refusal>,
    gaps: u64,
    repeats: u64,
    first: Option<u16>,
) -> End
    ensures { result ≡ end_of failed outcome gaps repeats first }
{
    if failed {
        return End::Unreadable;
    }
    if let Err(refusal) = outcome {
        return End::Refused(refusal);
    }
    if (gaps > 0) | (repeats > 0) | begins_late(first) {
        return End::Lacking;
    }
    End::Whole
}
