// Frames pushed into a track, and a change of its mode.
ghost use Rattle.std.specs.Prelude.{◌≡◌, ◌≤◌};
ghost use Rattle.easing.specs.declared.kinds.Easing.TheVariants.{Linear};
ghost use Rattle.frames.specs.Limits.{frame_of};
ghost use Rattle.frames.specs.Pushing.{put_of};
ghost use Rattle.keyframe.specs.Pushing.{new_track, stored_of, placed_of, push_of, looping_of};

use crate::limits::last_time;
use crate::refusing::{looping_outcome, push_outcome};
use crate::types::Track;
use easing::Easing;
use frames::Keyframe;
use loop_mode::Loop;
use refusal::{Refusal, Rejected};

// -0 as a time becomes +0.
fn stored(k: Keyframe) -> Keyframe
    ensures { result ≡ stored_of k }
{
    let mut u = k;
    u.time = if k.time == 0.0 { 0.0 } else { k.time };
    u
}

fn place(track: Track, k: Keyframe) -> Result<Track, Rejected<Track>>
    requires { track.count ≤ 64 }
    ensures { result ≡ placed_of track (put_of track.frames track.count k) }
{
    let old = track.frames;
    let Ok(put) = frames::put(old, track.count, k) else {
        return Err(Rejected::new(track, Refusal::TrackFull));
    };
    let frames = put.frames;
    let mut u = track;
    u.frames = frames;
    u.count = put.count;
    u.complete = false;
    Ok(u)
}

impl Track {
    // No frames, Once.
    pub fn new() -> Track
        ensures { result ≡ new_track }
    {
        let frames = [frames::blank(); 64];
        Track {
            frames,
            count: 0,
            elapsed: 0.0,
            looping: Loop::Once,
            loop_count: 0,
            complete: false,
        }
    }

    // A Linear frame. Refused as `push_frame` refuses.
    pub fn push(self, time: f32, value: f32) -> Result<Track, Rejected<Track>>
        ensures { result ≡ push_of self (frame_of time value Linear) }
    {
        self.push_frame(Keyframe::new(time, value, Easing::Linear))
    }

    // The same with an easing.
    pub fn push_eased(self, time: f32, value: f32, easing: Easing) -> Result<Track, Rejected<Track>>
        ensures { result ≡ push_of self (frame_of time value easing) }
    {
        self.push_frame(Keyframe::new(time, value, easing))
    }

    // A frame at the time of another replaces it. Refused: 4; 2 and 3 for the easing; 11 for the
    // time, the value or the total; 9 where the track is full.
    pub fn push_frame(self, k: Keyframe) -> Result<Track, Rejected<Track>>
        ensures { result ≡ push_of self k }
    {
        if !self.is_within_limits() {
            return Err(Rejected::new(self, Refusal::RecordBreaksLimit));
        }
        let frame = stored(k);
        // Not by `last_time`, which would copy the track once more.
        let n = self.count;
        let last = if n == 0 { 0.0 } else { self.frames[n - 1].time };
        let looping = self.looping;
        let easing = k.easing;
        let outcome = push_outcome(easing, looping, last, frame.time, frame.value);
        if let Err(refusal) = outcome {
            return Err(Rejected::new(self, refusal));
        }
        place(self, frame)
    }

    // Refused: 4; 11 where the mode breaks the pass or the total limit.
    pub fn looping(self, mode: Loop) -> Result<Track, Rejected<Track>>
        ensures { result ≡ looping_of self mode }
    {
        if !self.is_within_limits() {
            return Err(Rejected::new(self, Refusal::RecordBreaksLimit));
        }
        if let Err(refusal) = looping_outcome(mode, last_time(self)) {
            return Err(Rejected::new(self, refusal));
        }
        let frames = self.frames;
        Ok(Track {
            frames,
            count: self.count,
            elapsed: self.elapsed,
            looping: mode,
            loop_count: self.loop_count,
            complete: false,
        })
    }
}
