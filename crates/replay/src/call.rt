// What an entry of the list is, by its number.
use std::fmt;

#[derive(Clone, Copy)]
pub enum EasingCall {
    Apply,
    Eq,
    IsSupplied,
}

#[derive(Clone, Copy)]
pub enum TweenCall {
    Value,
    Progress,
    EasedProgress,
    Snapshot,
    PlaybackDuration,
    Reset,
    Seek,
    Reverse,
    Pause,
    Resume,
    Update,
    Run,
}

#[derive(Clone, Copy)]
pub enum TrackCall {
    Push,
    PushEased,
    Looping,
    ValueAt,
    Value,
    ValuesAt,
    Update,
    ActiveTime,
    Duration,
    PlaybackDuration,
    Progress,
    IsComplete,
    Reset,
    SeekTo,
}

#[derive(Clone, Copy)]
pub enum Call {
    NamedEasing,
    NewTween,
    NewTrack,
    Easing(EasingCall),
    Tween(TweenCall),
    Track(TrackCall),
}

#[derive(Clone, Copy)]
pub enum Kind {
    // It says how many cases there are.
    End,
    // A tween, and a track, for the calls behind it.
    Tween,
    Track,
    Call(Call),
}

// A number that no entry has.
#[derive(Clone, Copy)]
pub struct UnknownKind(pub u32);

fn easing_call(number: u32) -> Option<Call> {
    match number {
        1 => Some(Call::Easing(EasingCall::Apply)),
        2 => Some(Call::Easing(EasingCall::Eq)),
        3 => Some(Call::Easing(EasingCall::IsSupplied)),
        4 => Some(Call::NamedEasing),
        _ => None,
    }
}

fn tween_call(number: u32) -> Option<Call> {
    match number {
        17 => Some(Call::NewTween),
        18 => Some(Call::Tween(TweenCall::Value)),
        19 => Some(Call::Tween(TweenCall::Progress)),
        20 => Some(Call::Tween(TweenCall::EasedProgress)),
        21 => Some(Call::Tween(TweenCall::Snapshot)),
        22 => Some(Call::Tween(TweenCall::PlaybackDuration)),
        23 => Some(Call::Tween(TweenCall::Reset)),
        24 => Some(Call::Tween(TweenCall::Seek)),
        25 => Some(Call::Tween(TweenCall::Reverse)),
        26 => Some(Call::Tween(TweenCall::Pause)),
        27 => Some(Call::Tween(TweenCall::Resume)),
        28 => Some(Call::Tween(TweenCall::Update)),
        29 => Some(Call::Tween(TweenCall::Run)),
        _ => None,
    }
}

fn track_call(number: u32) -> Option<Call> {
    match number {
        33 => Some(Call::NewTrack),
        34 => Some(Call::Track(TrackCall::Push)),
        35 => Some(Call::Track(TrackCall::PushEased)),
        36 => Some(Call::Track(TrackCall::Looping)),
        37 => Some(Call::Track(TrackCall::ValueAt)),
        38 => Some(Call::Track(TrackCall::Value)),
        39 => Some(Call::Track(TrackCall::ValuesAt)),
        40 => Some(Call::Track(TrackCall::Update)),
        41 => Some(Call::Track(TrackCall::ActiveTime)),
        42 => Some(Call::Track(TrackCall::Duration)),
        43 => Some(Call::Track(TrackCall::PlaybackDuration)),
        44 => Some(Call::Track(TrackCall::Progress)),
        45 => Some(Call::Track(TrackCall::IsComplete)),
        46 => Some(Call::Track(TrackCall::Reset)),
        47 => Some(Call::Track(TrackCall::SeekTo)),
        _ => None,
    }
}

impl TryFrom<u32> for Kind {
    type Error = UnknownKind;

    fn try_from(number: u32) -> Result<Kind, UnknownKind> {
        match number {
            0 => Ok(Kind::End),
            16 => Ok(Kind::Tween),
            32 => Ok(Kind::Track),
            _ => match easing_call(number)
                .or(tween_call(number))
                .or(track_call(number))
            {
                Some(call) => Ok(Kind::Call(call)),
                None => Err(UnknownKind(number)),
            },
        }
    }
}

impl fmt::Display for EasingCall {
    fn fmt<W: fmt::Write>(&self, f: &mut fmt::Formatter<W>) -> fmt::Result {
        f.write_str(match self {
            EasingCall::Apply => "easing apply",
            EasingCall::Eq => "easing eq",
            EasingCall::IsSupplied => "easing is_supplied",
        })
    }
}

impl fmt::Display for TweenCall {
    fn fmt<W: fmt::Write>(&self, f: &mut fmt::Formatter<W>) -> fmt::Result {
        f.write_str(match self {
            TweenCall::Value => "tween value",
            TweenCall::Progress => "tween progress",
            TweenCall::EasedProgress => "tween eased_progress",
            TweenCall::Snapshot => "tween snapshot",
            TweenCall::PlaybackDuration => "tween playback_duration",
            TweenCall::Reset => "tween reset",
            TweenCall::Seek => "tween seek",
            TweenCall::Reverse => "tween reverse",
            TweenCall::Pause => "tween pause",
            TweenCall::Resume => "tween resume",
            TweenCall::Update => "tween update",
            TweenCall::Run => "tween run",
        })
    }
}

impl fmt::Display for TrackCall {
    fn fmt<W: fmt::Write>(&self, f: &mut fmt::Formatter<W>) -> fmt::Result {
        f.write_str(match self {
            TrackCall::Push => "track push",
            TrackCall::PushEased => "track push_eased",
            TrackCall::Looping => "track looping",
            TrackCall::ValueAt => "track value_at",
            TrackCall::Value => "track value",
            TrackCall::ValuesAt => "track values_at",
            TrackCall::Update => "track update",
            TrackCall::ActiveTime => "track active_time",
            TrackCall::Duration => "track duration",
            TrackCall::PlaybackDuration => "track playback_duration",
            TrackCall::Progress => "track progress",
            TrackCall::IsComplete => "track is_complete",
            TrackCall::Reset => "track reset",
            TrackCall::SeekTo => "track seek_to",
        })
    }
}

impl fmt::Display for Call {
    fn fmt<W: fmt::Write>(&self, f: &mut fmt::Formatter<W>) -> fmt::Result {
        match self {
            Call::NamedEasing => f.write_str("easing named"),
            Call::NewTween => f.write_str("tween new"),
            Call::NewTrack => f.write_str("track new"),
            Call::Easing(call) => write!(f, "{call}"),
            Call::Tween(call) => write!(f, "{call}"),
            Call::Track(call) => write!(f, "{call}"),
        }
    }
}
