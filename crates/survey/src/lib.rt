// What an auditor asks of a log, gathered record by record in memory of a fixed size.
#![tactic(auto)]

mod lists;
mod survey;

pub use lists::{Lists, Seen};
pub use survey::{Counts, Survey, begin, survey_on};
