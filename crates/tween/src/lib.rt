// A ramp from one value to another, and its clock.
#![tactic(auto)]

mod answers;
mod beside;
mod change;
mod limits;
mod read;
mod record;
mod step;
mod update;

pub use answers::Updated;
pub use beside::value_by;
pub use limits::within;
pub use read::value_in;
pub use record::{Tween, TweenSnapshot, TweenState};
pub use step::step_on;
pub use update::{Glided, glide};
