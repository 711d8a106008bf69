// The curve of an easing that is lent as words, where no easing need be built to draw it.
#![tactic(auto)]

mod drawing;

pub use drawing::{draw, holds, search};
