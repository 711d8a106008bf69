// A ramp as text, a name and its value to a line; and the tween that it describes, just reset.
#![tactic(auto)]

mod easings;
mod parse;
mod settings;

pub use easings::{decimals, has_count};
pub use parse::parse_ramp;
