// The samples of frames at many times, and at one.
ghost use Rattle.std.specs.Prelude.{◌≡◌, true, ◌<◌, ◌≤◌, length, take};
ghost use Rattle.frames.specs.Limits.{frames_within};
ghost use Rattle.frames.specs.Sampling.{sample_of, filled_of, unsettled_of};
ghost use Rattle.frames.specs.Inner.{times_of};

use crate::frame::Keyframe;
use crate::sampling::{cut, pick};
use crate::search::interval;
use bezier::Found;

// Only the first n places are filled.
fn times_of(frames: &[Keyframe; 64], n: usize) -> [f32; 64]
    requires { n ≤ 64 }
    ensures { take n result ≡ times_of (take n frames.now) }
{
    let mut times = [0.0f32; 64];
    for i in 0..n {
        times[i] = frames[i].time;
    }
    times
}

// starts are the frames' times. Only the two frames beside a time, the first and the last are read whole.
fn at(frames: &[Keyframe; 64], n: usize, starts: &[f32; 64], secs: f32) -> Found
    requires { (frames_within (take n frames.now) ≡ true) × (0 < n) × (n ≤ 64) × (take n starts.now ≡ times_of (take n frames.now)) }
    ensures { result ≡ sample_of (take n frames.now) secs }
{
    let first = frames[0];
    let last = frames[n - 1];
    let t = cut(math::max_zero(secs), last.time);
    let low = interval(starts, n, t);
    let k = frames[low];
    let l = frames[low + 1];
    pick(first, last, k, l, t)
}

// The sample of the first n frames at each time goes into the front of out; answered is how many of
// them did not settle.
pub fn fill(frames: [Keyframe; 64], n: usize, times: &[f32], out: &mut [f32]) -> usize
    requires { (frames_within (take n frames) ≡ true) × (0 < n) × (n ≤ 64) × (length times.now ≤ length out.old) }
    ensures output { out.new ≡ filled_of (take n frames) times.now out.old }
    ensures count { result ≡ unsettled_of (take n frames) times.now }
{
    let starts = times_of(&frames, n);
    let mut unsettled: usize = 0;
    for i in 0..times.len() {
        let found = at(&frames, n, &starts, times[i]);
        out[i] = found.value;
        unsettled += !found.settled as usize;
    }
    unsettled
}

pub fn sample(frames: [Keyframe; 64], n: usize, secs: f32) -> Found
    requires { (frames_within (take n frames) ≡ true) × (0 < n) × (n ≤ 64) }
    ensures { result ≡ sample_of (take n frames) secs }
{
    at(&frames, n, &times_of(&frames, n), secs)
}
