// The easing curves, each at a progress t from 0 to 1. They are inner steps: the easings call them
// with t clamped and the parameters within their limits.
#![tactic(auto)]

mod back;
mod bounce;
mod circ;
mod jumps;
mod powers;
mod root;
mod slow;
mod stairs;

pub use back::{ease_in_back, ease_in_out_back, ease_out_back};
pub use bounce::{custom_bounce, ease_in_bounce, ease_in_out_bounce, ease_out_bounce};
pub use circ::{ease_in_circ, ease_in_out_circ, ease_out_circ};
pub use jumps::{Position, jump};
pub use powers::{
    ease_in_cubic, ease_in_out_cubic, ease_in_out_quad, ease_in_out_quart, ease_in_out_quint,
    ease_in_quad, ease_in_quart, ease_in_quint, ease_out_cubic, ease_out_quad, ease_out_quart,
    ease_out_quint,
};
pub use slow::slow_mo;
pub use stairs::steps;
