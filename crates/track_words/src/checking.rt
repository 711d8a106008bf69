// Whether a track's words may be used.
ghost use Rattle.std.specs.Prelude.{◌≡◌, ◌≤◌, take};
ghost use Rattle.words.specs.Faults.{faulted_number};
ghost use Rattle.words.specs.Lent.{easing_at, track_in};
ghost use Rattle.words.specs.Sampling.{easing_fits};
ghost use Rattle.words.specs.Tracks.{known_kinds};
ghost use Rattle.track_words.specs.Checking.{check_of};
ghost use Rattle.track_words.specs.Inner.{head_of, sound_of};

use crate::reading::{easing_at, elapsed, last_time, looping, wide, word_at};
use refusal::Refusal;
use words::Fault;

// The first 13 kinds have no parameters: the commonest are told by one test, and CubicBezier with no
// easing built.
fn easing_fits(w: &[u32; 518], at: usize) -> bool
    requires { at ≤ 506 }
    ensures { result ≡ easing_fits (easing_at w.now at) }
{
    let kind = word_at(w, at);
    if kind < 13 {
        return true;
    }
    let a = word_at(w, at + 1);
    let b = word_at(w, at + 2);
    let c = word_at(w, at + 3);
    let d = word_at(w, at + 4);
    if easing_words::holds(kind, a, b, c, d) {
        return true;
    }
    words::easing_fits(easing_at(w, at))
}

// Floats from +0 up are in the order of their patterns, so limits are asked of the patterns: 0x4b800000
// is that of 16,777,216. above is 1 more than the last time's.
fn frames_fit(w: &[u32; 518], n: usize) -> bool
    requires { n ≤ 64 }
    ensures { result ≡ sound_of w.now n }
{
    let mut above: u32 = 0;
    for i in 0..n {
        let at = 8 * i;
        let time = word_at(w, at);
        let value = word_at(w, at + 1);
        if (above <= time) & (time <= 0x4b80_0000) & (value % 0x8000_0000 <= 0x4b80_0000) {
            if !easing_fits(w, at + 2) {
                return false;
            }
            above = time + 1;
        } else {
            return false;
        }
    }
    true
}

fn kinds_known(w: &[u32; 518], n: usize) -> bool
    requires { n ≤ 64 }
    ensures { result ≡ known_kinds (take n (track_in w.now).frames) }
{
    for i in 0..n {
        if !words::is_kind(word_at(w, 8 * i + 2)) {
            return false;
        }
    }
    true
}

// What is left to ask where the frames fit.
fn check_head(w: &[u32; 518], base: f32) -> Result<(), Fault>
    ensures { faulted_number result ≡ head_of w.now base }
{
    if word_at(w, 514) < 5 {
        if keyframe::clock_fits(elapsed(w), looping(w), base) {
            return Ok(());
        }
        return Err(Fault::Refused(Refusal::RecordBreaksLimit));
    }
    Err(Fault::UnknownWord)
}

// Unknown where a word is no kind or no mode; refused where the track breaks a limit.
pub fn check(w: &[u32; 518]) -> Result<(), Fault>
    ensures { faulted_number result ≡ check_of w.now }
{
    let count = wide(word_at(w, 512));
    if count <= 64 {
        if frames_fit(w, count) {
            return check_head(w, last_time(w, count));
        }
    }
    if kinds_known(w, words::places(count)) & (word_at(w, 514) < 5) {
        return Err(Fault::Refused(Refusal::RecordBreaksLimit));
    }
    Err(Fault::UnknownWord)
}
