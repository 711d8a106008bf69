// The words that a program is called with.
use crate::ends::end_unreadable;
use crate::files::argument;
use crate::saying::{STDERR_FILENO, STDOUT_FILENO, say, say_text};
use crate::version::VERSION;
use std::env::FillError;
use std::rt::{Env, HostRuntime};

// Whether there is an argument i, of any length.
pub fn has_argument(rt: &HostRuntime, i: usize) -> bool {
    !matches!(rt.arg(i, &mut []), Err(FillError::NotPresent))
}

// Whether the program is called with one word, and which; with blanks behind it up to 20 bytes. A file of that name
// is found behind `./`.
fn is_asked(rt: &HostRuntime, word: &[u8]) -> bool {
    let mut buffer = io::buffer();
    let given = argument(rt, 1, &mut buffer);
    let is_word = match given.strip_prefix(word) {
        Some(rest) => (given.len() <= 20) & rest.iter().all(|b| *b == b' '),
        None => false,
    };
    is_word & has_argument(rt, 1) & !has_argument(rt, 2)
}

// Whether there are fewer words than that.
fn is_missing(rt: &HostRuntime, least: usize) -> bool {
    (least > 0) && !has_argument(rt, least - 1)
}

fn say_version(name: &[u8]) {
    say(STDOUT_FILENO, name);
    say_text(STDOUT_FILENO, format_args!(" {VERSION}\n"));
}

// Whether there are from `least` to `most` words, the program's own among them. Where not, the help, the version
// or the usage is printed, and the program has nothing left to do.
pub fn has_words(
    rt: &HostRuntime,
    name: &[u8],
    usage: &[u8],
    help: &[u8],
    least: usize,
    most: usize,
) -> bool {
    if is_asked(rt, b"--version") {
        say_version(name);
        return false;
    }
    if is_asked(rt, b"--help") {
        say(STDOUT_FILENO, usage);
        say(STDOUT_FILENO, help);
        say_version(name);
        return false;
    }
    if is_missing(rt, least) | has_argument(rt, most) {
        say(STDERR_FILENO, usage);
        end_unreadable();
        return false;
    }
    true
}
