// The common ways of a tween that is lent as words: no tween is built, and only the words that change
// are written. Where they are unsure they say nothing, and the library answers.
#![tactic(auto)]

mod fitting;
mod stepping;
mod valuing;

pub use stepping::{Stepped, step_on};
pub use valuing::{Valued, value};
