// Words and numbers on a descriptor.
use crate::shown::InRamp;
use std::fmt::{self, Write};

pub const STDOUT_FILENO: i32 = 1;

pub const STDERR_FILENO: i32 = 2;

#[derive(Clone, Copy)]
struct Descriptor(i32);

// What can't be written is left out: a program's last line tells how it ended.
impl fmt::Write for Descriptor {
    fn write_str(&mut self, text: &str) -> fmt::Result {
        io::write_all(self.0, text.as_bytes());
        Ok(())
    }
}

pub fn say(fd: i32, text: &[u8]) {
    io::write_all(fd, text);
}

// A text of several parts, by `format_args!`.
pub fn say_text<D: fmt::Display + Drop>(fd: i32, text: D) {
    let _ = Descriptor(fd).write(text);
}

pub fn say_number(fd: i32, n: u64) {
    io::print_decimal(fd, n);
}

// So that it reads back.
pub fn say_float(fd: i32, x: f32) {
    say_text(fd, InRamp(x));
}

// Without the blanks behind it.
pub fn say_name(fd: i32, name: &[u8]) {
    let length = name
        .iter()
        .rposition(|b| *b != b' ')
        .map_or(0, |last| last + 1);
    say(fd, &name[..length]);
}
