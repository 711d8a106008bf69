// Why a file failed, in the system's words.
use crate::saying::{STDERR_FILENO, say};
use std::env::FillError;
use std::io::{Cursor, Error, Write};

// Whether a text is at its end, or has the number of an error next.
fn is_end(text: &[u8]) -> bool {
    text.starts_with(&[0]) | text.starts_with(b" (os error ")
}

// The words of such a text.
fn words(text: &[u8]) -> &[u8] {
    for at in 0..text.len() {
        if is_end(&text[at..]) {
            return &text[..at];
        }
    }
    text
}

// What the system says of an error, without its number.
pub fn say_reason(fd: i32, error: Error) {
    let mut text = Cursor::new([0u8; 128]);
    let _ = write!(text, "{error}");
    say(fd, words(&text.into_inner()));
}

// On standard error: a name, and why there is no argument for it.
pub fn say_no_argument(name: &[u8], error: FillError) {
    say(STDERR_FILENO, name);
    match error {
        FillError::NotPresent => say(STDERR_FILENO, b": Invalid argument\n"),
        FillError::TooLong => say(STDERR_FILENO, b": File name too long\n"),
    }
}
