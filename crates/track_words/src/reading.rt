// Frames and what stands behind them, read from the words.
ghost use Rattle.std.specs.Prelude.{◌≡◌, not, ◌+◌, ◌*◌, ◌<◌, ◌≤◌, eqb, take};
ghost use Rattle.frames.specs.Sampling.{duration_of};
ghost use Rattle.words.specs.Lent.{word_at, float_at, easing_at, loop_at, frame_at};
ghost use Rattle.words.specs.Modes.{loop_from};
ghost use Rattle.words.specs.Tracks.{loop_in};
ghost use Rattle.track_words.specs.Reading.{frame_in, frames_of};

use frames::Keyframe;
use loop_mode::Loop;
use words::{LaxEasing, LaxKeyframe, LaxLoop};

pub fn wide(x: u32) -> usize
    ensures { result ≡ x }
{
    x as usize
}

// A place is a number: callers show by arithmetic that it is one of the 518, and a type for places would ask for the
// same.
pub fn word_at(w: &[u32; 518], at: usize) -> u32
    requires { at < 518 }
    ensures { result ≡ word_at w.now at }
{
    w[at]
}

pub fn float_at(w: &[u32; 518], at: usize) -> f32
    requires { at < 518 }
    ensures { result ≡ float_at w.now at }
{
    math::of_bits(w[at])
}

pub fn easing_at(w: &[u32; 518], at: usize) -> LaxEasing
    requires { at ≤ 506 }
    ensures { result ≡ easing_at w.now at }
{
    LaxEasing {
        kind: word_at(w, at),
        a: float_at(w, at + 1),
        b: float_at(w, at + 2),
        c: float_at(w, at + 3),
        d: float_at(w, at + 4),
        count: word_at(w, at + 5),
    }
}

pub fn frame_in(w: &[u32; 518], i: usize) -> Keyframe
    requires { i < 64 }
    ensures { result ≡ frame_in w.now i }
{
    let at = 8 * i;
    let e = easing_at(w, at + 2);
    words::frame_of(LaxKeyframe::new(float_at(w, at), float_at(w, at + 1), e))
}

pub fn looping(w: &[u32; 518]) -> Loop
    ensures { result ≡ loop_in (loop_from (loop_at w.now 514)) }
{
    words::mode_of(LaxLoop {
        mode: w[514],
        passes: w[515],
    })
}

pub fn elapsed(w: &[u32; 518]) -> f32
    ensures { result ≡ float_at w.now 513 }
{
    math::of_bits(w[513])
}

pub fn complete(w: &[u32; 518]) -> bool
    ensures { result ≡ not (eqb (word_at w.now 517) 0) }
{
    w[517] != 0
}

// The last of n frames' times, and 0 where there is none.
pub fn last_time(w: &[u32; 518], n: usize) -> f32
    requires { n ≤ 64 }
    ensures { result ≡ duration_of (take n (frames_of w.now)) }
{
    if n == 0 {
        return 0.0;
    }
    float_at(w, 8 * (n - 1))
}
