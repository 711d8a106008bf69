// Lines of the report.
use std::rt::HostRuntime;
use tools::{STDOUT_FILENO, say_float};

// A line that ends in a decimal that reads back.
pub fn float_line(rt: &HostRuntime, name: &str, x: f32) {
    let _ = print!(rt; "{name}");
    say_float(STDOUT_FILENO, x);
    let _ = println!(rt);
}

// What is said, and of what a reader has to know if the replay stopped.
pub fn line_so_far(rt: &HostRuntime, text: &str, stopped: bool) {
    if stopped {
        let _ = println!(rt; "{text}, up to where the replay stopped");
    } else {
        let _ = println!(rt; "{text}");
    }
}
