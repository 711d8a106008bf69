// The value of a track at a time.
ghost use Rattle.std.specs.Prelude.{◌≡◌};
ghost use Rattle.keyframe.specs.Sampling.{value_at_of, value_now};

use crate::playback::active;
use crate::refusing::sample_outcome;
use crate::types::Track;
use bezier::Found;
use refusal::Refusal;
use units::Seconds;

// Refused: 4; 10 where there are no frames.
impl Track {
    pub fn value_at(self, secs: Seconds) -> Result<Found, Refusal>
        ensures { result ≡ value_at_of self secs.0 }
    {
        if !self.is_within_limits() {
            return Err(Refusal::RecordBreaksLimit);
        }
        sample_outcome(self.count)?;
        let list = self.frames;
        Ok(frames::sample(list, self.count, secs.0))
    }

    // The value at the active time.
    pub fn value(self) -> Result<Found, Refusal>
        ensures { result ≡ value_now self }
    {
        if !self.is_within_limits() {
            return Err(Refusal::RecordBreaksLimit);
        }
        sample_outcome(self.count)?;
        let list = self.frames;
        let secs = active(self);
        Ok(frames::sample(list, self.count, secs))
    }
}
