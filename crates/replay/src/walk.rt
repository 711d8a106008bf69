// The list, gone through entry by entry.
use crate::call::{Call, EasingCall, Kind, TrackCall, TweenCall};
use crate::read::next;
use crate::{easings, tracks, tweens};
use rows::{Row, is_answer, length_at, track_in, tween_in, word};
use std::fs::File;
use words::{LaxTrack, LaxTween};

// The records that were last given.
#[derive(Clone, Copy)]
struct Given {
    tween: LaxTween,
    track: LaxTrack,
}

// What was found. counts has a place for each number of a call; first is the case of the first difference, from
// 1 on.
#[derive(Clone, Copy)]
pub struct Tally {
    pub counts: [u64; 48],
    pub cases: u64,
    pub differences: u64,
    pub first: Option<u64>,
}

// The list is cut or cannot be read, behind so many cases.
#[derive(Clone, Copy)]
pub struct Cut {
    pub cases: u64,
}

impl Given {
    fn none() -> Given {
        let words = Row::empty().list;
        Given {
            tween: tween_in(words),
            track: track_in(words),
        }
    }
}

impl Call {
    // How many words the arguments have.
    fn arguments(self, words: [u32; 1024]) -> usize {
        match self {
            Call::NamedEasing => 1,
            Call::NewTween => 2,
            Call::NewTrack => 0,
            Call::Easing(EasingCall::Apply) => 7,
            Call::Easing(EasingCall::Eq) => 12,
            Call::Easing(EasingCall::IsSupplied) => 6,
            Call::Tween(TweenCall::Seek | TweenCall::Update) => 1,
            Call::Tween(TweenCall::Run) => 3 + length_at(words, 0),
            Call::Tween(_) => 0,
            Call::Track(TrackCall::Push | TrackCall::Looping) => 2,
            Call::Track(TrackCall::PushEased) => 8,
            Call::Track(TrackCall::ValuesAt) => 2 + length_at(words, 0),
            Call::Track(TrackCall::ValueAt | TrackCall::Update | TrackCall::SeekTo) => 1,
            Call::Track(_) => 0,
        }
    }

    fn answer(self, given: Given, words: [u32; 1024]) -> Row {
        match self {
            Call::NamedEasing => easings::named(words),
            Call::NewTween => tweens::new(words),
            Call::NewTrack => tracks::new(given.track),
            Call::Easing(call) => easings::answer(call, words),
            Call::Tween(call) => tweens::answer(call, given.tween, words),
            Call::Track(call) => tracks::answer(call, given.track, words),
        }
    }
}

impl Tally {
    fn begin() -> Tally {
        Tally {
            counts: [0; 48],
            cases: 0,
            differences: 0,
            first: None,
        }
    }

    fn count(&mut self, number: u32, is_same: bool) {
        if let Some(count) = self.counts.get_mut(number as usize) {
            *count = count.wrapping_add(1);
        }
        self.cases = self.cases.wrapping_add(1);
        if !is_same {
            self.differences = self.differences.wrapping_add(1);
            self.first = self.first.or(Some(self.cases));
        }
    }
}

// A call: its arguments, and behind them the answer that the library has to give.
fn agrees(call: Call, given: Given, row: Row) -> bool {
    let words = row.list;
    is_answer(
        words,
        row.count,
        call.arguments(words),
        call.answer(given, words),
    )
}

// The list ends in an entry of its own; the count of turns is more than it has.
pub fn all(file: &mut File) -> Result<Tally, Cut> {
    let mut given = Given::none();
    let mut tally = Tally::begin();
    for _ in 0..1000000 {
        let cut = Cut { cases: tally.cases };
        let entry = next(file).ok_or(cut)?;
        match Kind::try_from(entry.number) {
            Ok(Kind::Tween) => given.tween = tween_in(entry.words.list),
            Ok(Kind::Track) => given.track = track_in(entry.words.list),
            Ok(Kind::Call(call)) => tally.count(entry.number, agrees(call, given, entry.words)),
            Ok(Kind::End) if u64::from(word(entry.words.list, 0)) == tally.cases => return Ok(
                tally,
            ),
            _ => return Err(cut),
        }
    }
    Err(Cut { cases: tally.cases })
}
