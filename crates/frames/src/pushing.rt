// One more frame among n frames.
ghost use Rattle.std.specs.Prelude.{◌≡◌, ◌≤◌, ◌<◌, length, take};
ghost use Rattle.frames.specs.Pushing.{put_of};
ghost use Rattle.frames.specs.Inner.{earlier_of, insert_of};

use crate::frame::{Keyframe, Put};

// How many, from the front, are before the time.
fn earlier(frames: &[Keyframe], time: f32) -> usize
    ensures { (result ≤ length frames.now) × (result ≡ earlier_of time frames.now) }
{
    for i in 0..frames.len() {
        if !(frames[i].time < time) {
            return i;
        }
    }
    frames.len()
}

// Of n frames, those from p on go one place up, and k goes to p.
fn insert(frames: [Keyframe; 64], n: usize, p: usize, k: Keyframe) -> [Keyframe; 64]
    requires { (p ≤ n) × (n < 64) }
    ensures { result ≡ insert_of frames n p k }
{
    let mut g = frames;
    for j in (p..n).rev() {
        let f = g[j];
        g[j + 1] = f;
    }
    g[p] = k;
    g
}

// A frame at k's time is replaced; the places behind the frames keep what they hold. An error, of the
// frames as they came, where there are 64, and none of them at k's time.
pub fn put(frames: [Keyframe; 64], n: usize, k: Keyframe) -> Result<Put, Put>
    requires { n ≤ 64 }
    ensures { result ≡ put_of frames n k }
{
    let p = earlier(&frames[..n], k.time);
    if p < n {
        if frames[p].time == k.time {
            let mut g = frames;
            g[p] = k;
            return Ok(Put {
                frames: g,
                count: n,
            });
        }
    }
    if n < 64 {
        let g = insert(frames, n, p, k);
        return Ok(Put {
            frames: g,
            count: n + 1,
        });
    }
    Err(Put { frames, count: n })
}
