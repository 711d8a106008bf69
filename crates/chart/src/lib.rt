// Numbers, axes and shapes of a picture in SVG, on standard output.
#![tactic(auto)]

pub mod axis;
pub mod numbers;
pub mod svg;
pub mod ticks;
