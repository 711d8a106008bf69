// The library's answers as words of the list. A refused call answers its number.
ghost use Rattle.std.specs.Prelude.{◌≡◌, ℕ, List};
ghost use Rattle.rows.specs.Words.{put_of, row_of};
ghost use Rattle.rows.specs.Answers.{unknown_words, refused_words, accepted_words, flag_words, float_words, found_words, answer_words};

use crate::entries::Row;
use bezier::Found;
use refusal::Refusal;
use units::{Progress, Seconds};
use words::{UNKNOWN_WORD, flag_word};

pub fn unknown() -> Row
    ensures { result ≡ row_of unknown_words }
{
    Row::empty().put(UNKNOWN_WORD)
}

pub fn refused(refusal: Refusal) -> Row
    ensures { result ≡ row_of (refused_words refusal) }
{
    Row::empty().put(refusal.number())
}

pub fn accepted() -> Row
    ensures { result ≡ row_of accepted_words }
{
    Row::empty().put(0)
}

// Behind the head a 1 where the record that is handed back is the one that came.
pub fn kept(head: Row, back: Row, came: Row) -> Row
    ensures { (back.list ≡ came.list → result ≡ put_of head 1) × ((back.list ≡ came.list → ⊥) → result ≡ put_of head 0) }
{
    head.put(flag_word(back.list == came.list))
}

pub fn flag_row(b: bool) -> Row
    ensures { result ≡ row_of (flag_words b) }
{
    accepted().put(flag_word(b))
}

fn float_row(x: f32) -> Row
    ensures { result ≡ row_of (float_words x) }
{
    accepted().put_float(x)
}

// What an accepted call answers.
pub trait Answer {
    ghost words: { Self → List ℕ };

    fn row(self) -> Row
        ensures { result ≡ row_of (words self) };
}

impl Answer for Found {
    ghost words = { found_words };

    fn row(self) -> Row {
        float_row(self.value)
    }
}

impl Answer for Seconds {
    ghost words = { λ s. float_words s.0 };

    fn row(self) -> Row {
        float_row(self.0)
    }
}

impl Answer for Progress {
    ghost words = { λ p. float_words p.0 };

    fn row(self) -> Row {
        float_row(self.0)
    }
}

impl Answer for bool {
    ghost words = { flag_words };

    fn row(self) -> Row {
        flag_row(self)
    }
}

pub fn answer_row<T: Answer + Copy>(a: Result<T, Refusal>) -> Row
    ensures { result ≡ row_of (answer_words T.words a) }
{
    match a {
        Ok(answer) => answer.row(),
        Err(refusal) => refused(refusal),
    }
}
