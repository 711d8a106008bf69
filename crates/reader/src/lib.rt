// Reads an event log back: replays it into a tween, and counts what is missing.
#![tactic(auto)]

mod gaps;
pub mod hear;
mod read;
mod record;
mod skim;

pub use gaps::capped_add;
pub use hear::Replay;
pub use read::{Replayed, record_at, replay, replay_on};
pub use record::{number_in, step_in};
