// Why a call on a track within its limits is refused, by the parts that count. last is the last time.
ghost use Rattle.std.specs.Prelude.{◌≡◌};
ghost use Rattle.keyframe.specs.Pushing.{later_of};
ghost use Rattle.keyframe.specs.Inner.{takes_at, push_outcome, room_outcome, looping_outcome, sample_outcome, fill_outcome, seek_outcome};

use crate::limits::mode_fits;
use easing::Easing;
use loop_mode::Loop;
use refusal::Refusal;

fn later(last: f32, time: f32) -> f32
    ensures { result ≡ later_of last time }
{
    if time < last { last } else { time }
}

// Whether a frame's time and value, and the total with it in, are within their limits.
fn takes(looping: Loop, last: f32, time: f32, value: f32) -> bool
    ensures { result ≡ takes_at looping last time value }
{
    let base = later(last, time);
    frames::is_time(time) & math::is_value(value) & mode_fits(looping, base)
}

// A push of a frame with this easing, time and value: 2, 3, 11.
pub fn push_outcome(
    easing: Easing,
    looping: Loop,
    last: f32,
    time: f32,
    value: f32,
) -> Result<(), Refusal>
    ensures { result ≡ push_outcome easing looping last time value }
{
    if !easing.is_supplied() {
        return Err(Refusal::EasingNotSupplied);
    }
    if !easing.fits_record() {
        return Err(Refusal::EasingParameter);
    }
    if !takes(looping, last, time, value) {
        return Err(Refusal::TrackLimit);
    }
    Ok(())
}

// A frame for which there is no place: 9.
pub fn room_outcome(full: bool) -> Result<(), Refusal>
    ensures { result ≡ room_outcome full }
{
    if full {
        return Err(Refusal::TrackFull);
    }
    Ok(())
}

// A change of mode: 11.
pub fn looping_outcome(mode: Loop, last: f32) -> Result<(), Refusal>
    ensures { result ≡ looping_outcome mode last }
{
    if !mode_fits(mode, last) {
        return Err(Refusal::TrackLimit);
    }
    Ok(())
}

// A sample of this many frames: 10.
pub fn sample_outcome(count: usize) -> Result<(), Refusal>
    ensures { result ≡ sample_outcome count }
{
    if count == 0 {
        return Err(Refusal::NoFrames);
    }
    Ok(())
}

// As many samples as there are times, into an output of this length: 10, 12.
pub fn fill_outcome(count: usize, times: usize, room: usize) -> Result<(), Refusal>
    ensures { result ≡ fill_outcome count times room }
{
    sample_outcome(count)?;
    if room < times {
        return Err(Refusal::OutputTooShort);
    }
    Ok(())
}

// A seek to this progress: 1.
pub fn seek_outcome(progress: f32) -> Result<(), Refusal>
    ensures { result ≡ seek_outcome progress }
{
    if math::is_nan(progress) {
        return Err(Refusal::ProgressIsNan);
    }
    Ok(())
}
