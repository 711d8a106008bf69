// What moves in a track.
ghost use Rattle.std.specs.Prelude.{◌≡◌};
ghost use Rattle.keyframe.specs.Stepping.{update_of, reset_of, seek_to_of};

use crate::clock::{seek, tick};
use crate::handed::moved;
use crate::limits::last_time;
use crate::refusing::seek_outcome;
use crate::types::{Clock, Ticked, Track, Updated};
use refusal::{Refusal, Rejected};
use units::Progress;

impl Track {
    // dt is in seconds; a NaN and what is below 0 count as 0. Refused: 4; 5 for a step above
    // 16,777,216; 6 for a step that is lost in rounding; 8 past 16,777,216 in a mode without an end.
    pub fn update(self, dt: f32) -> Result<Updated, Rejected<Track>>
        ensures { result ≡ update_of self dt }
    {
        if !self.is_within_limits() {
            return Err(Rejected::new(self, Refusal::RecordBreaksLimit));
        }
        let looping = self.looping;
        let clock = Clock::new(self.elapsed, self.loop_count, self.complete);
        match tick(self.count, last_time(self), looping, clock, dt) {
            Ok(Ticked { clock: c, running }) => Ok(Updated {
                track: moved(self, c.elapsed, c.loop_count, c.complete),
                running,
            }),
            Err(refusal) => Err(Rejected::new(self, refusal)),
        }
    }

    // Back to the start. Refused: 4.
    pub fn reset(self) -> Result<Track, Rejected<Track>>
        ensures { result ≡ reset_of self }
    {
        if !self.is_within_limits() {
            return Err(Rejected::new(self, Refusal::RecordBreaksLimit));
        }
        Ok(moved(self, 0.0, 0, false))
    }

    // To a progress of the whole playback, or of one pass where there is no end. Refused: 4; 1
    // where the progress is NaN.
    pub fn seek_to(self, progress: Progress) -> Result<Track, Rejected<Track>>
        ensures { result ≡ seek_to_of self progress.0 }
    {
        if !self.is_within_limits() {
            return Err(Rejected::new(self, Refusal::RecordBreaksLimit));
        }
        if let Err(refusal) = seek_outcome(progress.0) {
            return Err(Rejected::new(self, refusal));
        }
        let looping = self.looping;
        let c = seek(looping, last_time(self), math::clamp01(progress.0));
        Ok(moved(self, c.elapsed, c.loop_count, c.complete))
    }
}
