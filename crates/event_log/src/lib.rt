// The event log of a pump: what was done to a tween, as a file.
#![tactic(auto)]

mod event;
mod head;
mod writer;

pub use event::Event;
pub use head::{has_mark, has_version};
pub use writer::{write_head, write_record};
