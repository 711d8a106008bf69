// Records out of the words of the list.
ghost use Rattle.std.specs.Prelude.{◌≡◌, ◌≤◌, ◌<◌};
ghost use Rattle.words.specs.Lent.{easing_at, loop_at, tween_in, frame_at};
ghost use Rattle.rows.specs.Records.{frames_at, track_in};

use crate::entries::{float_at, word};
use words::{LaxEasing, LaxKeyframe, LaxLoop, LaxTrack, LaxTween, places};

pub fn easing_at(words: [u32; 1024], at: usize) -> LaxEasing
    requires { at < 1024 }
    ensures { result ≡ easing_at words at }
{
    LaxEasing {
        kind: word(words, at),
        a: float_at(words, at + 1),
        b: float_at(words, at + 2),
        c: float_at(words, at + 3),
        d: float_at(words, at + 4),
        count: word(words, at + 5),
    }
}

pub fn loop_at(words: [u32; 1024], at: usize) -> LaxLoop
    requires { at < 1024 }
    ensures { result ≡ loop_at words at }
{
    LaxLoop {
        mode: word(words, at),
        passes: word(words, at + 1),
    }
}

pub fn tween_in(words: [u32; 1024]) -> LaxTween
    ensures { result ≡ tween_in words }
{
    LaxTween {
        start: float_at(words, 0),
        end: float_at(words, 1),
        duration: float_at(words, 2),
        easing: easing_at(words, 3),
        delay: float_at(words, 9),
        time_scale: float_at(words, 10),
        looping: loop_at(words, 11),
        elapsed: float_at(words, 13),
        delay_elapsed: float_at(words, 14),
        state: word(words, 15),
        loop_count: word(words, 16),
        ping_pong_reverse: word(words, 17),
    }
}

fn frame_at(words: [u32; 1024], at: usize) -> LaxKeyframe
    requires { at < 1000 }
    ensures { result ≡ frame_at words at }
{
    LaxKeyframe::new(
        float_at(words, at),
        float_at(words, at + 1),
        easing_at(words, at + 2),
    )
}

// Places behind the first count are 0.
fn frames_at(words: [u32; 1024], from: usize, count: usize) -> [LaxKeyframe; 64]
    requires from_bound { from < 100 }
    requires count_bound { count ≤ 64 }
    ensures { result ≡ frames_at words from count }
{
    let mut frames = [frame_at([0u32; 1024], 0); 64];
    for i in 0..count {
        frames[i] = frame_at(words, from + 8 * i);
    }
    frames
}

// Its head, then its frames.
pub fn track_in(words: [u32; 1024]) -> LaxTrack
    ensures { result ≡ track_in words }
{
    let frames = frames_at(words, 6, places(word(words, 0) as usize));
    LaxTrack {
        frames,
        count: word(words, 0),
        elapsed: float_at(words, 1),
        looping: loop_at(words, 2),
        loop_count: word(words, 4),
        complete: word(words, 5),
    }
}
