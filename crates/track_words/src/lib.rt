// A track lent as 518 words: 64 places of eight (time, value, kind, four parameters, a count), then
// count, elapsed, mode, passes, loop_count, complete. Frames are looked at where they stand.
#![tactic(auto)]

mod checked;
mod checking;
mod filling;
mod playing;
mod pushing;
mod reading;
mod sampling;

pub use checked::Checked;
pub use checking::check;
pub use playing::{count, is_done, store_clock};
pub use pushing::{put, stored_row};
