// What a replay comes to, gathered in columns and drawn.
#![tactic(auto)]

pub mod columns;
pub mod course;
mod curve;
mod field;
pub mod frame;
mod labels;
mod marks;
mod page;
pub mod picture;
mod title;
