// What moves in a track, and where it stands.
ghost use Rattle.std.specs.Prelude.{◌≡◌, ◌<◌};
ghost use Rattle.frames.specs.Sampling.{sample_of};
ghost use Rattle.keyframe.specs.Clock.{clock_in, seek_of, tick_of};
ghost use Rattle.keyframe.specs.Limits.{base_of, end_of, frames_in};
ghost use Rattle.keyframe.specs.Playback.{active_of, done_of, playback_of, playback_progress};
ghost use Rattle.words.specs.Lent.{clock_into, word_at};
ghost use Rattle.track_words.specs.Reading.{track_of};

use crate::checked::Checked;
use crate::reading::{complete, elapsed, last_time, looping, wide, word_at};
use crate::sampling::sample;
use bezier::Found;
use keyframe::{Clock, Ticked};
use refusal::Refusal;

pub fn count(w: &[u32; 518]) -> usize
    ensures { result ≡ word_at w.now 512 }
{
    wide(word_at(w, 512))
}

pub fn is_done(w: &[u32; 518]) -> bool
    ensures { result ≡ done_of (track_of w.now) }
{
    (count(w) < 2) | complete(w)
}

impl Checked<'_> {
    pub fn value_at(self, secs: f32) -> Found
        requires { 0 < word_at self.words.now 512 }
        ensures { result ≡ sample_of (frames_in (track_of self.entry.words.now)) secs }
    {
        sample(self.words, count(self.words), secs)
    }

    // One pass, which is the last frame's time.
    pub fn duration(self) -> f32
        ensures { result ≡ base_of (track_of self.entry.words.now) }
    {
        last_time(self.words, count(self.words))
    }

    pub fn active_time(self) -> f32
        ensures { result ≡ active_of (track_of self.entry.words.now) }
    {
        keyframe::active_at(
            looping(self.words),
            complete(self.words),
            elapsed(self.words),
            self.duration(),
        )
    }

    // All passes.
    pub fn playback_duration(self) -> f32
        ensures { let t = track_of self.entry.words.now in result ≡ playback_of (end_of t.looping (base_of t)) (base_of t) }
    {
        keyframe::playback_at(looping(self.words), self.duration())
    }

    pub fn progress(self) -> f32
        ensures { let t = track_of self.entry.words.now in result ≡ playback_progress (end_of t.looping (base_of t)) t }
    {
        keyframe::progress_at(
            looping(self.words),
            complete(self.words),
            elapsed(self.words),
            self.duration(),
        )
    }

    // A step of dt seconds.
    pub fn tick(self, dt: f32) -> Result<Ticked, Refusal>
        ensures { let t = track_of self.entry.words.now in result ≡ tick_of t.count (base_of t) t.looping (clock_in t) dt }
    {
        let clock = Clock::new(
            elapsed(self.words),
            word_at(self.words, 516),
            complete(self.words),
        );
        keyframe::tick(
            count(self.words),
            self.duration(),
            looping(self.words),
            clock,
            dt,
        )
    }

    // At a progress p.
    pub fn seek(self, p: f32) -> Clock
        ensures { let t = track_of self.entry.words.now in result ≡ seek_of (end_of t.looping (base_of t)) (base_of t) p }
    {
        keyframe::seek(looping(self.words), self.duration(), p)
    }
}

pub fn store_clock(w: &mut [u32; 518], c: Clock)
    ensures { w.new ≡ clock_into w.old c }
{
    w[513] = math::bits(c.elapsed);
    w[516] = c.loop_count;
    w[517] = words::flag_word(c.complete);
}
