// A refusal of a call that takes a record and hands it back.
ghost use Rattle.std.specs.Prelude.{◌≡◌};

use crate::Refusal;

#[derive(Clone, Copy)]
pub struct Rejected<T> {
    // The record as it came.
    pub value: T,
    pub refusal: Refusal,
}

impl<T> Rejected<T> {
    pub fn new(value: T, refusal: Refusal) -> Rejected<T>
        ensures { result ≡ record { value = value; refusal = refusal } }
    {
        Rejected { value, refusal }
    }
}

// For a caller that has no use for the record.
impl<T: Copy> From<Rejected<T>> for Refusal {
    ghost from_gives = { λ rejected refusal. refusal ≡ rejected.refusal };

    fn from(rejected: Rejected<T>) -> Refusal {
        rejected.refusal
    }
}
