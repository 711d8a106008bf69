// What is wrong with a text.
ghost use Rattle.std.specs.Prelude.{◌≡◌};

use crate::word::Word;
use decimal::DecimalError;
use std::fmt;

#[derive(Clone, Copy)]
pub enum Expected {
    // The name of a setting of a ramp.
    Setting,
    // A setting that was not given before.
    NewSetting,
    // A line that gives the start, the end or the duration.
    Start,
    End,
    Duration,
    Mode,
    Easing,
    // An event of a script.
    Event,
    // A record before it, to repeat.
    RecordBefore,
    // A decimal.
    Number,
    // One with at most 64 digits.
    ShorterNumber,
    // One that is not beyond the largest f32.
    SmallerNumber,
    // A whole number up to 4,294,967,295.
    Count,
    LineEnd,
}

impl fmt::Display for Expected {
    fn fmt<W: fmt::Write>(&self, f: &mut fmt::Formatter<W>) -> fmt::Result {
        f.write_str(match self {
            Expected::Setting => "start, end, duration, delay, scale, mode or easing",
            Expected::NewSetting => "each name once",
            Expected::Start => "a line 'start NUMBER'",
            Expected::End => "a line 'end NUMBER'",
            Expected::Duration => "a line 'duration SECONDS'",
            Expected::Mode => "Once, Times N, Forever, PingPong or PingPongTimes N",
            Expected::Easing => "an easing of the manual, such as Linear",
            Expected::Event => "step SECONDS [TIMES], pause, resume, reset, drop N or repeat N",
            Expected::RecordBefore => "a record just before it",
            Expected::Number => "a number: digits, a point if need be, a sign before them",
            Expected::ShorterNumber => "a number of at most 64 digits",
            Expected::SmallerNumber => "a number that an f32 can hold",
            Expected::Count => "a whole number up to 4294967295",
            Expected::LineEnd => "the end of the line",
        })
    }
}

impl From<DecimalError> for Expected {
    fn from(error: DecimalError) -> Expected {
        match error {
            DecimalError::Wrong => Expected::Number,
            DecimalError::TooLong => Expected::ShorterNumber,
            DecimalError::TooLarge => Expected::SmallerNumber,
        }
    }
}

// Where nothing was found, the line or the text ended.
#[derive(Clone, Copy)]
pub struct Mistake {
    pub found: Word,
    pub expected: Expected,
}

impl Mistake {
    pub fn new(found: Word, expected: Expected) -> Mistake
        ensures found { result.found ≡ found }
        ensures expected { result.expected ≡ expected }
    {
        Mistake { found, expected }
    }
}

// line counts from 1.
#[derive(Clone, Copy)]
pub struct Fault {
    pub line: u64,
    pub mistake: Mistake,
}
