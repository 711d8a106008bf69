// Records lent as words, each in the order of its fields.
ghost use Rattle.std.specs.Prelude.{◌≡◌};
ghost use Rattle.math.specs.Rounded.{f32};
ghost use Rattle.words.specs.Kinds.{words};
ghost use Rattle.words.specs.Lent.{easing_at, loop_at, frame_at, tween_in, tween_into};

use crate::kinds::LaxEasing;
use crate::modes::{LaxLoop, flag_word, state_word};
use crate::tracks::LaxKeyframe;
use crate::tweens::LaxTween;
use math::{bits, of_bits};
use tween::Tween;

fn six(kind: u32, a: u32, b: u32, c: u32, d: u32, count: u32) -> LaxEasing
    ensures { result ≡ words kind (f32 a) (f32 b) (f32 c) (f32 d) count }
{
    LaxEasing {
        kind,
        a: of_bits(a),
        b: of_bits(b),
        c: of_bits(c),
        d: of_bits(d),
        count,
    }
}

pub fn easing_in(w: &[u32; 6]) -> LaxEasing
    ensures { result ≡ easing_at w.now 0 }
{
    six(w[0], w[1], w[2], w[3], w[4], w[5])
}

pub fn loop_in(w: &[u32; 2]) -> LaxLoop
    ensures { result ≡ loop_at w.now 0 }
{
    LaxLoop {
        mode: w[0],
        passes: w[1],
    }
}

pub fn frame_in(w: &[u32; 8]) -> LaxKeyframe
    ensures { result ≡ frame_at w.now 0 }
{
    LaxKeyframe {
        time: of_bits(w[0]),
        value: of_bits(w[1]),
        easing: six(w[2], w[3], w[4], w[5], w[6], w[7]),
    }
}

pub fn tween_in(w: &[u32; 18]) -> LaxTween
    ensures { result ≡ tween_in w.now }
{
    LaxTween {
        start: of_bits(w[0]),
        end: of_bits(w[1]),
        duration: of_bits(w[2]),
        easing: six(w[3], w[4], w[5], w[6], w[7], w[8]),
        delay: of_bits(w[9]),
        time_scale: of_bits(w[10]),
        looping: LaxLoop {
            mode: w[11],
            passes: w[12],
        },
        elapsed: of_bits(w[13]),
        delay_elapsed: of_bits(w[14]),
        state: w[15],
        loop_count: w[16],
        ping_pong_reverse: w[17],
    }
}

// What a call may change: the ends and the clock.
pub fn store_tween(w: &mut [u32; 18], t: Tween)
    ensures { w.new ≡ tween_into w.old t }
{
    let state = t.state;
    w[0] = bits(t.start);
    w[1] = bits(t.end);
    w[13] = bits(t.elapsed);
    w[14] = bits(t.delay_elapsed);
    w[15] = state_word(state);
    w[16] = t.loop_count;
    w[17] = flag_word(t.ping_pong_reverse);
}
