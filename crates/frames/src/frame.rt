// A frame, and what comes of putting one among others.
use easing::Easing;

// time is in seconds from the start of the track; easing goes from this frame to the next.
#[derive(Clone, Copy)]
pub struct Keyframe {
    pub time: f32,
    pub value: f32,
    pub easing: Easing,
}

// The frames with one more among them, or with one replaced; or as they came, where there was no room.
#[derive(Clone, Copy)]
pub struct Put {
    pub frames: [Keyframe; 64],
    pub count: usize,
}
