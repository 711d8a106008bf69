// The limits of a track.
ghost use Rattle.std.specs.Prelude.{◌≡◌, ◌≤◌};
ghost use Rattle.keyframe.specs.Limits.{base_of, end_of, mode_fits, clock_fits, within_of, over_passes};

use crate::types::Track;
use loop_mode::Loop;

fn over_passes(base: f32, n: u32) -> f32
    ensures { result ≡ over_passes base n }
{
    base * std::num::nearest_u32_to_f32(loop_mode::passes(n))
}

// Where playback ends whose one pass takes `base` seconds.
#[tactic(auto, unfolding(crate::specs::Limits::end_of))]
pub fn end_of(looping: Loop, base: f32) -> Option<f32>
    ensures { result ≡ end_of looping base }
{
    match looping {
        Loop::Once => Some(base),
        Loop::Times(n) | Loop::PingPongTimes(n) => Some(over_passes(base, n)),
        Loop::Forever | Loop::PingPong => None,
    }
}

// The pass limit, and the limit of the total.
pub fn mode_fits(looping: Loop, base: f32) -> bool
    ensures { result ≡ mode_fits looping base }
{
    let fits = looping.is_within_limits();
    match end_of(looping, base) {
        Some(total) => fits & (total <= 16777216.0),
        None => fits,
    }
}

pub fn clock_fits(elapsed: f32, looping: Loop, base: f32) -> bool
    ensures { result ≡ clock_fits elapsed looping base }
{
    math::is_between(elapsed, 0.0, 16777216.0) & mode_fits(looping, base)
}

// The last time, and 0 where there is no frame. No type holds that there are at most 64: a track's fields are public,
// and one with more is taken, to be refused with 4.
pub fn last_time(track: Track) -> f32
    requires { track.count ≤ 64 }
    ensures { result ≡ base_of track }
{
    let n = track.count;
    if n == 0 {
        return 0.0;
    }
    track.frames[n - 1].time
}

impl Track {
    pub fn is_within_limits(self) -> bool
        ensures { result ≡ within_of self }
    {
        let n = self.count;
        if n > 64 {
            return false;
        }
        let mut last: f32 = -1.0;
        for i in 0..n {
            let k = self.frames[i];
            if !(k.is_within_limits() & (last < k.time)) {
                return false;
            }
            last = k.time;
        }
        // Not by `last_time`, which would copy the track once more.
        let looping = self.looping;
        if n == 0 {
            return clock_fits(self.elapsed, looping, 0.0);
        }
        clock_fits(self.elapsed, looping, self.frames[n - 1].time)
    }
}
