// Text of words, a line at a time. A # and what follows it in its line is a comment; blanks, tabs and
// carriage returns part words.
#![tactic(auto)]

mod expected;
mod line;
mod lines;
mod word;

pub use expected::{Expected, Fault, Mistake};
pub use line::Line;
pub use lines::Lines;
pub use word::{Word, line_behind, word_behind};
