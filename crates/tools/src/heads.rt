// The head of a log, and its length where it is a file.
use crate::files::fill_from;
use event_log::{has_mark, has_version};
use refusal::Refusal;
use std::fs::File;
use std::rt::HostRuntime;

#[derive(Clone, Copy)]
pub enum HeadError {
    Refused(Refusal),
    // No byte at all, which is a mark cut short.
    Empty,
    // Standard error has a line that says why.
    Unreadable,
}

// Whether the last record of a file is cut.
fn is_cut(length: Option<u64>) -> bool {
    length.is_some_and(|n| (n >= 5) && (n - 5) % 8 != 0)
}

fn judge(head: &[u8], length: Option<u64>) -> Result<(), Refusal> {
    if !has_mark(head) {
        return Err(Refusal::WrongMark);
    }
    if !has_version(head) {
        return Err(Refusal::UnknownVersion);
    }
    if is_cut(length) {
        return Err(Refusal::WrongLength);
    }
    Ok(())
}

// Reads the head of the log that an argument names, from its start. length is None where it is not known.
pub fn read_head(
    rt: &HostRuntime,
    file: &mut File,
    argument: usize,
    length: Option<u64>,
) -> Result<(), HeadError> {
    let mut head = [0u8; 5];
    let filled = fill_from(rt, file, argument, &mut head);
    if filled.failed {
        return Err(HeadError::Unreadable);
    }
    if filled.bytes.is_empty() {
        return Err(HeadError::Empty);
    }
    judge(filled.bytes, length).map_err(HeadError::Refused)
}
