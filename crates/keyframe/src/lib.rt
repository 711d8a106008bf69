// Keyframe tracks: a value along frames at ascending times.
#![tactic(auto)]

mod batch;
mod clock;
mod handed;
mod limits;
mod playback;
mod pushes;
mod refusing;
mod sampling;
mod steps;
mod types;

pub use clock::{active_at, playback_at, progress_at, seek, tick};
pub use limits::clock_fits;
pub use refusing::{
    fill_outcome, looping_outcome, push_outcome, room_outcome, sample_outcome, seek_outcome,
};
pub use types::{Clock, Filled, Ticked, Track, Updated};
