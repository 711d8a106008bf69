// A run of steps in one call: what an archive does all day. The record is checked once.
#![tactic(auto)]

mod gliding;
mod run;
mod take;

pub use run::{Run, run_steps};
