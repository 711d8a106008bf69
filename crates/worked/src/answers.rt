// Whether a track answers what is expected.
ghost use Rattle.std.specs.Prelude.{◌≡◌};
ghost use Rattle.keyframe.specs.Sampling.{value_at_of};
ghost use Rattle.keyframe.specs.Stepping.{update_of};
ghost use Rattle.easing.specs.Ends.{equals};
ghost use Rattle.worked.specs.Answers.{is_refused};

use keyframe::Track;
use units::Seconds;

pub fn gives(track: Track, secs: f32, expected: f32) -> bool
    ensures { result ≡ equals (value_at_of track secs) expected }
{
    match track.value_at(Seconds(secs)) {
        Ok(found) => found.value == expected,
        Err(_) => false,
    }
}

// dt is in seconds. The examples, and `is_refused` with them, name a refusal by its number.
pub fn refuses(track: Track, dt: f32, number: u32) -> bool
    ensures { result ≡ is_refused (update_of track dt) number }
{
    match track.update(dt) {
        Ok(_) => false,
        Err(rejected) => rejected.refusal.number() == number,
    }
}
