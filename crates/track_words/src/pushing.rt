// A frame pushed into the words of a track.
ghost use Rattle.std.specs.Prelude.{◌≡◌, cond, ◌-◌, ◌*◌, ◌<◌, ◌≤◌, take};
ghost use Rattle.std.specs.Float.Ieee.{eq};
ghost use Rattle.math.specs.Rounded.{f32, zero_f};
ghost use Rattle.frames.specs.Inner.{earlier_of};
ghost use Rattle.keyframe.specs.Limits.{base_of};
ghost use Rattle.keyframe.specs.Inner.{push_outcome};
ghost use Rattle.track_words.specs.Checking.{check_of};
ghost use Rattle.track_words.specs.Inner.{raised_by, row_into};
ghost use Rattle.track_words.specs.Pushing.{has_room, push_into, stored_row};
ghost use Rattle.track_words.specs.Reading.{frames_of, track_of};

use crate::checked::Checked;
use crate::playing::count;
use crate::reading::{float_at, looping};
use easing::Easing;
use refusal::Refusal;

// -0 as a time becomes +0.
fn stored_time(word: u32) -> u32
    ensures { result ≡ cond (eq (f32 word) zero_f) 0 word }
{
    if math::of_bits(word) == 0.0 {
        return 0;
    }
    word
}

pub fn stored_row(row: &[u32; 8]) -> [u32; 8]
    ensures { result ≡ stored_row row.now }
{
    let time = stored_time(row[0]);
    [time, row[1], row[2], row[3], row[4], row[5], row[6], row[7]]
}

impl Checked<'_> {
    // Whether a frame with this easing, time and value may go in, if there is room.
    pub fn push_outcome(self, easing: Easing, time: f32, value: f32) -> Result<(), Refusal>
        ensures { let t = track_of self.entry.words.now in result ≡ push_outcome easing t.looping (base_of t) time value }
    {
        keyframe::push_outcome(easing, looping(self.words), self.duration(), time, value)
    }
}

// How many of the first n frames, from the front, are before the time: what frames has of this name, over words.
// Here and in sampling.rt C's words are walked where they stand; to build the frames costs more than the walk.
fn earlier(w: &[u32; 518], n: usize, time: f32) -> usize
    requires { n ≤ 64 }
    ensures { (result ≤ n) × (result ≡ earlier_of time (take n (frames_of w.now))) }
{
    for i in 0..n {
        if !(float_at(w, 8 * i) < time) {
            return i;
        }
    }
    n
}

// Of n frames, those from p on go one place up.
fn raise(w: &mut [u32; 518], p: usize, n: usize)
    requires { (p ≤ n) × (n < 64) }
    ensures { w.new ≡ raised_by w.old (8 * n) (8 * n - 8 * p) }
{
    let low = 8 * p;
    for j in (low..8 * n).rev() {
        let x = w[j];
        w[j + 8] = x;
    }
}

fn put_row(w: &mut [u32; 518], p: usize, row: &[u32; 8])
    requires { p < 64 }
    ensures { w.new ≡ row_into w.old (8 * p) row.now 8 }
{
    let at = 8 * p;
    for j in 0..8usize {
        let x = row[j];
        w[at + j] = x;
    }
}

// false where the track is full and no frame has the row's time: then nothing is written. No method of
// `Checked`, which lends words to be read: this writes them.
pub fn put(w: &mut [u32; 518], row: &[u32; 8]) -> bool
    requires { check_of w.old ≡ 0 }
    ensures room { result ≡ has_room w.old row.now }
    ensures words { w.new ≡ cond result (push_into w.old row.now) w.old }
{
    let n = count(w);
    let time = math::of_bits(row[0]);
    let p = earlier(w, n, time);
    if p < n {
        if float_at(w, 8 * p) == time {
            put_row(w, p, row);
            w[512] = n as u32;
            w[517] = 0;
            return true;
        }
    }
    if n < 64 {
        raise(w, p, n);
        put_row(w, p, row);
        w[512] = (n + 1) as u32;
        w[517] = 0;
        return true;
    }
    false
}
