// A loop mode and a tween's state as words.
ghost use Rattle.std.specs.Prelude.{◌≡◌};
ghost use Rattle.words.specs.Modes.{loop_from, loop_words, state_from, state_word, flag_word};

use loop_mode::Loop;
use tween::TweenState;

// mode: 0 Once, 1 Times, 2 Forever, 3 PingPong, 4 PingPongTimes. passes is looked at in 1 and 4, and
// is written as 0 in the others.
#[repr(C)]
#[derive(Clone, Copy)]
pub struct LaxLoop {
    pub mode: u32,
    pub passes: u32,
}

pub fn loop_of(w: LaxLoop) -> Option<Loop>
    ensures { result ≡ loop_from w }
{
    let mode = w.mode;
    match mode {
        0 => Some(Loop::Once),
        1 => Some(Loop::Times(w.passes)),
        2 => Some(Loop::Forever),
        3 => Some(Loop::PingPong),
        4 => Some(Loop::PingPongTimes(w.passes)),
        _ => None,
    }
}

impl From<Loop> for LaxLoop {
    ghost from_gives = { λ l words. words ≡ loop_words l };

    fn from(l: Loop) -> LaxLoop {
        match l {
            Loop::Once => LaxLoop { mode: 0, passes: 0 },
            Loop::Times(n) => LaxLoop { mode: 1, passes: n },
            Loop::Forever => LaxLoop { mode: 2, passes: 0 },
            Loop::PingPong => LaxLoop { mode: 3, passes: 0 },
            Loop::PingPongTimes(n) => LaxLoop { mode: 4, passes: n },
        }
    }
}

// 0 Idle, 1 Running, 2 Paused, 3 Completed.
pub fn state_of(w: u32) -> Option<TweenState>
    ensures { result ≡ state_from w }
{
    match w {
        0 => Some(TweenState::Idle),
        1 => Some(TweenState::Running),
        2 => Some(TweenState::Paused),
        3 => Some(TweenState::Completed),
        _ => None,
    }
}

// No `From`: the state and the word are both other crates' types.
pub fn state_word(s: TweenState) -> u32
    ensures { result ≡ state_word s }
{
    match s {
        TweenState::Idle => 0,
        TweenState::Running => 1,
        TweenState::Paused => 2,
        TweenState::Completed => 3,
    }
}

// 0 is false, and every other word is true; true is written as 1.
pub fn flag_word(b: bool) -> u32
    ensures { result ≡ flag_word b }
{
    u32::from(b)
}
