// A track as words.
ghost use Rattle.std.specs.Prelude.{◌≡◌, ◌≤◌};
ghost use Rattle.words.specs.Modes.{loop_from};
ghost use Rattle.words.specs.Tracks.{lax_frame, places_in, loop_in, frame_from, frame_read, frames_from, track_from, known_track, frame_words, frames_words, track_words};

use crate::kinds::{LaxEasing, easing_of, is_kind};
use crate::modes::{LaxLoop, flag_word, loop_of};
use easing::Easing;
use frames::Keyframe;
use keyframe::Track;
use loop_mode::Loop;

#[repr(C)]
#[derive(Clone, Copy)]
pub struct LaxKeyframe {
    pub time: f32,
    pub value: f32,
    pub easing: LaxEasing,
}

impl LaxKeyframe {
    pub fn new(time: f32, value: f32, easing: LaxEasing) -> LaxKeyframe
        ensures { result ≡ lax_frame time value easing }
    {
        LaxKeyframe {
            time,
            value,
            easing,
        }
    }
}

// The first count places are the track's frames. The places behind them are not looked at, and come
// back as they came.
#[repr(C)]
#[derive(Clone, Copy)]
pub struct LaxTrack {
    pub frames: [LaxKeyframe; 64],
    pub count: u32,
    pub elapsed: f32,
    pub looping: LaxLoop,
    pub loop_count: u32,
    pub complete: u32,
}

// How many of the 64 places are looked at.
pub fn places(count: usize) -> usize
    ensures { (result ≤ 64) × (result ≡ places_in count) }
{
    if count < 64 { count } else { 64 }
}

// Whether every kind and the mode are known.
pub fn is_known(w: LaxTrack) -> bool
    ensures { result ≡ known_track w }
{
    let n = places(w.count as usize);
    for i in 0..n {
        let k = w.frames[i];
        if !is_kind(k.easing.kind) {
            return false;
        }
    }
    w.looping.mode < 5
}

pub fn frame_of(w: LaxKeyframe) -> Keyframe
    ensures { result ≡ frame_from w }
{
    match easing_of(w.easing) {
        Some(easing) => Keyframe::new(w.time, w.value, easing),
        None => Keyframe::new(w.time, w.value, Easing::Linear),
    }
}

// One frame alone.
pub fn read_frame(w: LaxKeyframe) -> Option<Keyframe>
    ensures { result ≡ frame_read w }
{
    if is_kind(w.easing.kind) {
        return Some(frame_of(w));
    }
    None
}

fn frames_of(words: [LaxKeyframe; 64], count: usize) -> [Keyframe; 64]
    ensures { result ≡ frames_from words count }
{
    let mut frames = [frames::blank(); 64];
    let n = places(count);
    for i in 0..n {
        frames[i] = frame_of(words[i]);
    }
    frames
}

pub fn mode_of(w: LaxLoop) -> Loop
    ensures { result ≡ loop_in (loop_from w) }
{
    match loop_of(w) {
        Some(l) => l,
        None => Loop::Once,
    }
}

// What is not known reads as Linear or Once.
pub fn track_of(w: LaxTrack) -> Track
    ensures { result ≡ track_from w }
{
    let words = w.frames;
    let count = w.count as usize;
    let frames = frames_of(words, count);
    Track {
        frames,
        count,
        elapsed: w.elapsed,
        looping: mode_of(w.looping),
        loop_count: w.loop_count,
        complete: w.complete != 0,
    }
}

impl From<Keyframe> for LaxKeyframe {
    ghost from_gives = { λ k words. words ≡ frame_words k };

    fn from(k: Keyframe) -> LaxKeyframe {
        let easing = k.easing;
        LaxKeyframe::new(k.time, k.value, LaxEasing::from(easing))
    }
}

// Over the places that came.
fn frames_words(came: [LaxKeyframe; 64], frames: [Keyframe; 64], count: usize) -> [LaxKeyframe; 64]
    ensures { result ≡ frames_words came frames count }
{
    let mut words = came;
    let n = places(count);
    for i in 0..n {
        words[i] = LaxKeyframe::from(frames[i]);
    }
    words
}

// No `From`: the places that came are a second argument.
pub fn track_words(came: [LaxKeyframe; 64], t: Track) -> LaxTrack
    ensures { result ≡ track_words came t }
{
    let list = t.frames;
    let frames = frames_words(came, list, t.count);
    let looping = t.looping;
    LaxTrack {
        frames,
        count: places(t.count) as u32,
        elapsed: t.elapsed,
        looping: LaxLoop::from(looping),
        loop_count: t.loop_count,
        complete: flag_word(t.complete),
    }
}
