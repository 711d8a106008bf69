// Why a call is refused.
#![tactic(auto)]

mod rejected;

ghost use Rattle.std.specs.Prelude.{◌≡◌};
ghost use Rattle.refusal.specs.Number.{number_of};

pub use rejected::Rejected;

#[derive(Clone, Copy)]
pub enum Refusal {
    // The progress is NaN.
    ProgressIsNan,
    // The easing is one of the twelve without a curve.
    EasingNotSupplied,
    // A parameter of the easing is not finite or beyond its limit.
    EasingParameter,
    // The tween or the track breaks a limit.
    RecordBreaksLimit,
    // The step is above 16,777,216 s.
    StepTooLong,
    // Lost time: the f32 sum would be off by more than an eighth of what the step adds.
    StepLost,
    // The step needs more than 4,096 folds.
    TooManyFolds,
    // The elapsed of a track without an end would pass 16,777,216 s.
    ElapsedTooLong,
    // The track has 64 frames, and none of them at this time.
    TrackFull,
    // The track has no frames.
    NoFrames,
    // A time, a value, the passes or the total would be beyond its limit.
    TrackLimit,
    // A lent output is shorter than what is to fill it.
    OutputTooShort,
    // The buffer has no room for a log's head, 5 bytes, or for a record, 8 bytes.
    NoRoom,
    // The step to be logged is NaN or below 0.
    StepBelowZero,
    // The log does not begin with PEL.
    WrongMark,
    // The log's version is not 1, or is cut short.
    UnknownVersion,
    // The log ends within a record, or is longer than its buffer.
    WrongLength,
    // The record's kind, zero byte or step is wrong.
    WrongRecord,
}

impl Refusal {
    // The refusal's number in the table of refusals, from 1 to 18.
    pub fn number(self) -> u32
        ensures { result ≡ number_of self }
    {
        match self {
            Refusal::ProgressIsNan => 1,
            Refusal::EasingNotSupplied => 2,
            Refusal::EasingParameter => 3,
            Refusal::RecordBreaksLimit => 4,
            Refusal::StepTooLong => 5,
            Refusal::StepLost => 6,
            Refusal::TooManyFolds => 7,
            Refusal::ElapsedTooLong => 8,
            Refusal::TrackFull => 9,
            Refusal::NoFrames => 10,
            Refusal::TrackLimit => 11,
            Refusal::OutputTooShort => 12,
            Refusal::NoRoom => 13,
            Refusal::StepBelowZero => 14,
            Refusal::WrongMark => 15,
            Refusal::UnknownVersion => 16,
            Refusal::WrongLength => 17,
            Refusal::WrongRecord => 18,
        }
    }
}
