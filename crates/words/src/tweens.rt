// A tween as words.
ghost use Rattle.std.specs.Prelude.{◌≡◌};
ghost use Rattle.words.specs.Tweens.{tween_from, tween_words};

use crate::kinds::{LaxEasing, easing_of};
use crate::modes::{LaxLoop, flag_word, loop_of, state_of, state_word};
use tween::Tween;

#[repr(C)]
#[derive(Clone, Copy)]
pub struct LaxTween {
    pub start: f32,
    pub end: f32,
    pub duration: f32,
    pub easing: LaxEasing,
    pub delay: f32,
    pub time_scale: f32,
    pub looping: LaxLoop,
    pub elapsed: f32,
    pub delay_elapsed: f32,
    pub state: u32,
    pub loop_count: u32,
    pub ping_pong_reverse: u32,
}

pub fn tween_of(w: LaxTween) -> Option<Tween>
    ensures { result ≡ tween_from w }
{
    let easing = easing_of(w.easing)?;
    let looping = loop_of(w.looping)?;
    let state = state_of(w.state)?;
    Some(Tween {
        start: w.start,
        end: w.end,
        duration: w.duration,
        easing,
        delay: w.delay,
        time_scale: w.time_scale,
        looping,
        elapsed: w.elapsed,
        delay_elapsed: w.delay_elapsed,
        state,
        loop_count: w.loop_count,
        ping_pong_reverse: w.ping_pong_reverse != 0,
    })
}

pub fn tween_words(t: Tween) -> LaxTween
    ensures { result ≡ tween_words t }
{
    LaxTween::from(t)
}

impl From<Tween> for LaxTween {
    ghost from_gives = { λ t words. words ≡ tween_words t };

    fn from(t: Tween) -> LaxTween {
        let easing = t.easing;
        let looping = t.looping;
        let state = t.state;
        LaxTween {
            start: t.start,
            end: t.end,
            duration: t.duration,
            easing: LaxEasing::from(easing),
            delay: t.delay,
            time_scale: t.time_scale,
            looping: LaxLoop::from(looping),
            elapsed: t.elapsed,
            delay_elapsed: t.delay_elapsed,
            state: state_word(state),
            loop_count: t.loop_count,
            ping_pong_reverse: flag_word(t.ping_pong_reverse),
        }
    }
}
