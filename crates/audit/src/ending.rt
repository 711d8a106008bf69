// How a report can end.
use refusal::Refusal;

#[derive(Clone, Copy)]
pub enum End {
    Whole,
    // There is a gap, a repeat, or a first number above 0.
    Lacking,
    Refused(Refusal),
    Unreadable,
}
