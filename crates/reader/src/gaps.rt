// What is missing before a record, and sums that stay at the most that a u64 holds.
ghost use Rattle.std.specs.Prelude.{◌≡◌, ◌+◌};
ghost use Rattle.reader.specs.Hearing.{capped, gap_of};

// last: the number of the record before, if there is one. 65,535 where the number is the one before again.
pub fn gap_before(last: Option<u16>, number: u16) -> u16
    ensures { result ≡ gap_of last number }
{
    match last {
        None => 0,
        Some(before) => number.wrapping_sub(before).wrapping_sub(1),
    }
}

pub fn capped_add(a: u64, b: u64) -> u64
    ensures { result ≡ capped (a + b) }
{
    a.saturating_add(b)
}
