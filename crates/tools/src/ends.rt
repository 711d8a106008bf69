// Last lines, by which a script tells how a program ended.
use crate::saying::{STDOUT_FILENO, say, say_text};

// A file can't be read, or is no ramp or script.
pub fn end_unreadable() {
    say(STDOUT_FILENO, b"end unreadable\n");
}

// By the refusal's number, which a caller may have alone.
pub fn end_refused(number: u32) {
    say_text(STDOUT_FILENO, format_args!("end refused {number}\n"));
}
