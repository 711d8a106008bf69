// The values of a track at many times: its frames are read once.
ghost use Rattle.std.specs.Prelude.{◌≡◌, ◌<◌, ◌≤◌, length, take};
ghost use Rattle.frames.specs.Sampling.{filled_of, unsettled_of};
ghost use Rattle.keyframe.specs.Limits.{frames_in};
ghost use Rattle.words.specs.Lent.{word_at};
ghost use Rattle.track_words.specs.Reading.{frames_of, track_of};

use crate::checked::Checked;
use crate::playing::count;
use crate::reading::frame_in;
use frames::Keyframe;

// Only the first n places are the track's.
fn frames_in(w: &[u32; 518], n: usize) -> [Keyframe; 64]
    requires { n ≤ 64 }
    ensures { take n result ≡ take n (frames_of w.now) }
{
    let mut frames = [frames::blank(); 64];
    for i in 0..n {
        frames[i] = frame_in(w, i);
    }
    frames
}

impl Checked<'_> {
    // The value at each time goes into the front of out; answered is how many of them are not settled.
    pub fn fill(self, times: &[f32], out: &mut [f32]) -> usize
        requires { (0 < word_at self.words.now 512) × (length times.now ≤ length out.old) }
        ensures output { out.new ≡ filled_of (frames_in (track_of self.entry.words.now)) times.now out.old }
        ensures count { result ≡ unsettled_of (frames_in (track_of self.entry.words.now)) times.now }
    {
        let n = count(self.words);
        frames::fill(frames_in(self.words, n), n, times, out)
    }
}
