// A frame of its parts, its limits, and the frame that stands where there is none.
ghost use Rattle.std.specs.Prelude.{◌≡◌};
ghost use Rattle.frames.specs.Limits.{frame_of, is_time, frame_within, blank};

use crate::frame::Keyframe;
use easing::Easing;

// Finite, from +0 to 16,777,216 seconds: -0 is none.
pub fn is_time(t: f32) -> bool
    ensures { result ≡ is_time t }
{
    if t == 0.0 {
        return f32::to_bits(t) == 0;
    }
    (0.0 < t) & (t <= 16777216.0)
}

impl Keyframe {
    // Nothing is tested.
    pub fn new(time: f32, value: f32, easing: Easing) -> Keyframe
        ensures { result ≡ frame_of time value easing }
    {
        Keyframe {
            time,
            value,
            easing,
        }
    }

    pub fn is_within_limits(self) -> bool
        ensures { result ≡ frame_within self }
    {
        let easing = self.easing;
        is_time(self.time) & math::is_value(self.value) & easing.fits_record()
    }
}

// What a place holds that never had a frame.
pub fn blank() -> Keyframe
    ensures { result ≡ blank }
{
    Keyframe::new(0.0, 0.0, Easing::Linear)
}
