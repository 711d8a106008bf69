// Easings: a progress from 0 to 1 in, the eased progress out.
#![tactic(auto)]

mod apply;
mod eq;
mod kinds;
mod params;

pub use kinds::{Easing, KINDS};
pub use params::{Params, params_of};
