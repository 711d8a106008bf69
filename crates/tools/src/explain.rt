// What is wrong, in words.
ghost use Rattle.std.specs.Prelude.{◌≡◌, IfSome, Some};
ghost use Rattle.refusal.specs.declared.Refusal.{Refusal};
ghost use Rattle.refusal.specs.Number.{number_of};

use crate::files::say_argument;
use crate::quoting::Quote;
use crate::saying::{STDERR_FILENO, say_text};
use lines::{Fault, Word};
use refusal::Refusal;
use std::fmt;
use std::rt::HostRuntime;

// What stands in a text where a fault is; nothing where the word is another text's.
#[derive(Clone, Copy)]
struct Found<'a> {
    text: &'a [u8],
    word: Word,
}

impl<'a> fmt::Display for Found<'a> {
    fn fmt<W: fmt::Write>(&self, f: &mut fmt::Formatter<W>) -> fmt::Result {
        let word = self.word;
        if word.to > self.text.len() {
            return Ok(());
        }
        if word.from < word.to {
            return write!(f, "{}", Quote(word.bytes(self.text)));
        }
        if word.to == self.text.len() {
            return f.write_str("the end of the file");
        }
        f.write_str("the end of the line")
    }
}

// On standard error: the argument's file, the line, what was found there, and what was expected.
pub fn say_fault(rt: &HostRuntime, argument: usize, text: &[u8], fault: Fault) {
    let Fault { line, mistake } = fault;
    let found = Found {
        text,
        word: mistake.found,
    };
    let expected = mistake.expected;
    say_argument(rt, STDERR_FILENO, argument);
    say_text(
        STDERR_FILENO,
        format_args!(", line {line}: found {found}, expected {expected}\n"),
    );
}

fn why(refusal: Refusal) -> &'static str {
    match refusal {
        Refusal::ProgressIsNan => "the progress is NaN",
        Refusal::EasingNotSupplied => "the easing is one of the twelve without a curve",
        Refusal::EasingParameter => "a parameter of the easing is not finite or beyond its limit",
        Refusal::RecordBreaksLimit => "the tween or the track breaks a limit",
        Refusal::StepTooLong => "the step is above 16,777,216 s",
        Refusal::StepLost =>
            "lost time: the f32 sum would be off by more than an eighth of what the step adds",
        Refusal::TooManyFolds => "the step needs more than 4,096 folds",
        Refusal::ElapsedTooLong => "the elapsed of a track without an end would pass 16,777,216 s",
        Refusal::TrackFull => "the track has 64 frames, and none of them at this time",
        Refusal::NoFrames => "the track has no frames",
        Refusal::TrackLimit => "a time, a value, the passes or the total would be beyond its limit",
        Refusal::OutputTooShort => "a lent output is shorter than what is to fill it",
        Refusal::NoRoom =>
            "the buffer has no room for a log's head, 5 bytes, or for a record, 8 bytes",
        Refusal::StepBelowZero => "the step to be logged is NaN or below 0",
        Refusal::WrongMark => "the log does not begin with PEL",
        Refusal::UnknownVersion => "the log's version is not 1, or is cut short",
        Refusal::WrongLength => "the log ends within a record, or is longer than its buffer",
        Refusal::WrongRecord => "the record's kind, zero byte or step is wrong",
    }
}

// The refusal with a number, if one has it.
fn refusal_of(number: u32) -> Option<Refusal>
    ensures numbered { IfSome result (λ refusal. number_of refusal ≡ number) }
    ensures every { (refusal : Refusal) → number_of refusal ≡ number → result ≡ Some refusal }
{
    match number {
        1 => Some(Refusal::ProgressIsNan),
        2 => Some(Refusal::EasingNotSupplied),
        3 => Some(Refusal::EasingParameter),
        4 => Some(Refusal::RecordBreaksLimit),
        5 => Some(Refusal::StepTooLong),
        6 => Some(Refusal::StepLost),
        7 => Some(Refusal::TooManyFolds),
        8 => Some(Refusal::ElapsedTooLong),
        9 => Some(Refusal::TrackFull),
        10 => Some(Refusal::NoFrames),
        11 => Some(Refusal::TrackLimit),
        12 => Some(Refusal::OutputTooShort),
        13 => Some(Refusal::NoRoom),
        14 => Some(Refusal::StepBelowZero),
        15 => Some(Refusal::WrongMark),
        16 => Some(Refusal::UnknownVersion),
        17 => Some(Refusal::WrongLength),
        18 => Some(Refusal::WrongRecord),
        _ => None,
    }
}

// The number, the name, and why. A caller may have the number alone, and one that no refusal has.
pub fn say_refusal(fd: i32, number: u32) {
    match refusal_of(number) {
        Some(refusal) => say_text(
            fd,
            format_args!("{number} {}: {}", names::refusal(refusal), why(refusal)),
        ),
        None => say_text(fd, format_args!("{number} : no refusal has this number")),
    }
}
