// The manual's names.
#![tactic(auto)]

use easing::Easing;
use loop_mode::Loop;
use refusal::Refusal;

// By the number of a kind, its place in `all_named`.
const EASINGS: [&str; 38] = [
    "Linear",
    "EaseInQuad",
    "EaseOutQuad",
    "EaseInOutQuad",
    "EaseInCubic",
    "EaseOutCubic",
    "EaseInOutCubic",
    "EaseInQuart",
    "EaseOutQuart",
    "EaseInOutQuart",
    "EaseInQuint",
    "EaseOutQuint",
    "EaseInOutQuint",
    "EaseInSine",
    "EaseOutSine",
    "EaseInOutSine",
    "EaseInExpo",
    "EaseOutExpo",
    "EaseInOutExpo",
    "EaseInCirc",
    "EaseOutCirc",
    "EaseInOutCirc",
    "EaseInBack",
    "EaseOutBack",
    "EaseInOutBack",
    "EaseInElastic",
    "EaseOutElastic",
    "EaseInOutElastic",
    "EaseInBounce",
    "EaseOutBounce",
    "EaseInOutBounce",
    "CubicBezier",
    "Steps",
    "RoughEase",
    "SlowMo",
    "Wiggle",
    "CustomBounce",
    "ExpoScale",
];

// Of its kind, whatever its parameters.
pub fn easing(easing: Easing) -> &'static str {
    EASINGS[easing.kind_number() as usize]
}

pub fn mode(mode: Loop) -> &'static str {
    match mode {
        Loop::Once => "Once",
        Loop::Times(_) => "Times",
        Loop::Forever => "Forever",
        Loop::PingPong => "PingPong",
        Loop::PingPongTimes(_) => "PingPongTimes",
    }
}

// Of a tween's state as a word, from 0, which a caller may have alone; empty for a word of none.
pub fn state(word: u32) -> &'static str {
    match word {
        0 => "Idle",
        1 => "Running",
        2 => "Paused",
        3 => "Completed",
        _ => "",
    }
}

pub fn refusal(refusal: Refusal) -> &'static str {
    match refusal {
        Refusal::ProgressIsNan => "ProgressIsNan",
        Refusal::EasingNotSupplied => "EasingNotSupplied",
        Refusal::EasingParameter => "EasingParameter",
        Refusal::RecordBreaksLimit => "RecordBreaksLimit",
        Refusal::StepTooLong => "StepTooLong",
        Refusal::StepLost => "StepLost",
        Refusal::TooManyFolds => "TooManyFolds",
        Refusal::ElapsedTooLong => "ElapsedTooLong",
        Refusal::TrackFull => "TrackFull",
        Refusal::NoFrames => "NoFrames",
        Refusal::TrackLimit => "TrackLimit",
        Refusal::OutputTooShort => "OutputTooShort",
        Refusal::NoRoom => "NoRoom",
        Refusal::StepBelowZero => "StepBelowZero",
        Refusal::WrongMark => "WrongMark",
        Refusal::UnknownVersion => "UnknownVersion",
        Refusal::WrongLength => "WrongLength",
        Refusal::WrongRecord => "WrongRecord",
    }
}
