// Frames: their limits, the interval of a time among them, the value between two of them, and one
// more among them. `fill`, `sample` and `put` are inner steps of our own crates: a track has tested
// the frames and their count before it calls them. They come as a track has them, 64 places and a count:
// nothing allocates, and what lies behind the count is kept.
#![tactic(auto)]

mod filling;
mod frame;
mod limits;
mod pushing;
mod sampling;
mod search;

pub use filling::{fill, sample};
pub use frame::{Keyframe, Put};
pub use limits::{blank, is_time};
pub use pushing::put;
pub use sampling::{along, cut, eased, span_of};
