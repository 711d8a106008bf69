// Helpers on one f32, which every layer leans on.
#![tactic(auto)]

mod blending;
mod class;
mod division;
mod lost;
mod pattern;
mod range;
mod whole;

pub use blending::{blend, ratio};
pub use class::{infinity, is_finite, is_nan};
pub use division::remainder;
pub use lost::is_lost;
pub use pattern::{bits, of_bits};
pub use range::{EPSILON, clamp, clamp01, is_below, is_between, is_value, max_zero, size};
pub use whole::{ceil, whole_part};
