// What the programs share: files, and lines for a person to read.
#![tactic(auto)]

mod calls;
mod ends;
mod explain;
mod files;
mod heads;
mod quoting;
mod ramps;
mod reasons;
mod saying;
mod shown;
mod version;

pub use calls::{has_argument, has_words};
pub use ends::{end_refused, end_unreadable};
pub use explain::{say_fault, say_refusal};
pub use files::{
    Filled, fill, fill_from, length_of, open_argument, open_overwrite, open_read, read_text,
    say_argument, say_failed,
};
pub use heads::{HeadError, read_head};
pub use ramps::{read_ramp, say_easing, say_mode, say_ramp};
pub use reasons::{say_no_argument, say_reason};
pub use saying::{STDERR_FILENO, STDOUT_FILENO, say, say_float, say_name, say_number};
