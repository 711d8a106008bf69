// K1, K2 and K3: whether the library gives the answers that were worked out by hand.
ghost use Rattle.std.specs.Prelude.{◌≡◌, true};
ghost use Rattle.math.specs.Rounded.{one_f};
ghost use Rattle.loop_mode.specs.declared.Loop.TheVariants.{Forever};
ghost use Rattle.keyframe.specs.Pushing.{left_by, looping_of};
ghost use Rattle.keyframe.specs.Stepping.{left_by_update, update_of};
ghost use Rattle.worked.specs.Answers.{pushed, ramp};

use crate::answers::{gives, refuses};
use keyframe::Track;
use loop_mode::Loop;

fn pushed(track: Track, time: f32, value: f32) -> Track
    ensures { result ≡ pushed track time value }
{
    match track.push(time, value) {
        Ok(grown) => grown,
        Err(rejected) => rejected.value,
    }
}

// Once and Linear, from 0 at 0 s to a value at a time.
fn ramp(time: f32, value: f32) -> Track
    ensures { result ≡ ramp time value }
{
    pushed(pushed(Track::new(), 0.0, 0.0), time, value)
}

// Frames (0, 0), (2, 8): at 1, 4. Push (2, 6): at 1, 3; at NaN, 0; at infinity, 6.
pub fn k1() -> bool
    ensures { result ≡ true }
{
    let first = ramp(2.0, 8.0);
    let second = pushed(first, 2.0, 6.0);
    let nan = 0.0f32 / 0.0;
    gives(first, 1.0, 4.0)
        & gives(second, 1.0, 3.0)
        & gives(second, nan, 0.0)
        & gives(second, math::infinity(), 6.0)
}

// The track behind an update, refused or not.
fn moved(track: Track, dt: f32) -> Track
    ensures { result ≡ left_by_update (update_of track dt) }
{
    match track.update(dt) {
        Ok(updated) => updated.track,
        Err(rejected) => rejected.value,
    }
}

// Once, last time 1, a step of 3.5: elapsed 1, complete, loop_count 3.
pub fn k2() -> bool
    ensures { result ≡ true }
{
    let track = moved(ramp(1.0, 1.0), 3.5);
    (track.elapsed == 1.0) & track.complete & (track.loop_count == 3)
}

// A ramp to 1 in a second, Forever.
fn endless() -> Track
    ensures { result ≡ left_by (looping_of (ramp one_f one_f) Forever) }
{
    match ramp(1.0, 1.0).looping(Loop::Forever) {
        Ok(track) => track,
        Err(rejected) => rejected.value,
    }
}

// Forever, elapsed 524,288, a step of 0.02: refused 6.
pub fn k3() -> bool
    ensures { result ≡ true }
{
    refuses(moved(endless(), 524288.0), 0.02, 6)
}
