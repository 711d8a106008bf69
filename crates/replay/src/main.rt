// The fixed list of the Rust's answers, asked of the library with no Rust at hand: how many of each
// call were compared, and how many differ.
#![tactic(auto)]

mod call;
mod easings;
mod read;
mod report;
mod tracks;
mod tweens;
mod walk;

use std::rt::Env;
use tools::STDERR_FILENO;

// The list that a path names.
fn answer(rt: &HostRuntime, path: &[u8]) {
    match tools::open_read(rt, path) {
        // what can't be written of the report is left out
        Ok(mut list) => report::all(rt, walk::all(&mut list)),
        Err(error) => {
            tools::say(STDERR_FILENO, path);
            tools::say(STDERR_FILENO, b": ");
            tools::say_reason(STDERR_FILENO, error);
            tools::say(STDERR_FILENO, b"\n");
        }
    }
}

fn main(rt: HostRuntime) {
    let mut path = io::buffer();
    match rt.arg(1, &mut path) {
        Ok(length) => answer(&rt, &path[..length]),
        Err(error) => tools::say_no_argument(b"usage: replay LIST", error),
    }
}
