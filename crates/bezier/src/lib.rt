// The cubic Bezier easing.
#![tactic(auto)]

mod bezier;
mod curve;
mod search;
mod types;

pub use bezier::cubic_bezier;
pub use types::Found;
