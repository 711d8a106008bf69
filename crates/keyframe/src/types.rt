// The track, and what its calls answer.
use frames::Keyframe;
use loop_mode::Loop;

// The first `count` frames are the track's; the places behind them may hold anything. elapsed is in
// seconds.
#[derive(Clone, Copy)]
pub struct Track {
    pub frames: [Keyframe; 64],
    pub count: usize,
    pub elapsed: f32,
    pub looping: Loop,
    pub loop_count: u32,
    pub complete: bool,
}

// What moves in a track.
#[derive(Clone, Copy)]
pub struct Clock {
    pub elapsed: f32,
    pub loop_count: u32,
    pub complete: bool,
}

// running: whether the track is not complete, and has two frames or more.
#[derive(Clone, Copy)]
pub struct Ticked {
    pub clock: Clock,
    pub running: bool,
}

// running as in Ticked.
#[derive(Clone, Copy)]
pub struct Updated {
    pub track: Track,
    pub running: bool,
}

// filled is how many places at the front of a lent output were written; unsettled, how many of them
// hold a value that was not settled. refusal is the number, 0 for none: `batch_answer` keeps document 01's
// words for a batch, "The refusal number, 0 for none".
#[derive(Clone, Copy)]
pub struct Filled {
    pub filled: usize,
    pub unsettled: usize,
    pub refusal: u32,
}
