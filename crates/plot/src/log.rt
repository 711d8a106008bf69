// The log, gone over twice: for what it holds, and to draw it.
use crate::refusing::{refuse, unread};
use drawing::columns::{COLUMNS, Column, Table, note};
use drawing::course::Course;
use drawing::frame::frame_of;
use drawing::picture::print_log;
use reader::record_at;
use refusal::Refusal;
use std::fs::File;
use std::io::{Seek, SeekFrom};
use std::rt::HostRuntime;
use tools::{HeadError, STDERR_FILENO, end_unreadable};
use tween::Tween;

// Over the records of a part, until one is refused.
fn over_records<F: FnMut(&Course)>(c: &mut Course, part: &[u8], mut note: F)
    requires { (state : F) (c : _) → F.pre state c }
{
    for i in 0..part.len() / 8 {
        c.hear(record_at(part, i));
        if c.refused.is_some() {
            return;
        }
        note(c);
    }
}

// Over the next part of a file; whether it could be read. Not inlined, so that its buffer is on the stack once.
#[inline(never)]
fn over_part<F: FnMut(&Course)>(rt: &HostRuntime, file: &mut File, c: &mut Course, note: F) -> bool
    requires { (state : F) (c : _) → F.pre state c }
{
    let mut buffer = io::large_buffer();
    let filled = tools::fill_from(rt, file, 2, &mut buffer);
    if filled.failed {
        return false;
    }
    over_records(c, filled.bytes, note);
    true
}

// Over so many parts, until a record is refused. `note` is called at the start and behind each record. None where
// a part can't be read.
fn over_parts<F: FnMut(&Course)>(
    rt: &HostRuntime,
    file: &mut File,
    parts: u64,
    t: Tween,
    mut note: F,
) -> Option<Course>
    requires { (state : F) (c : _) → F.pre state c }
{
    let mut c = Course::begin(t);
    note(&c);
    for _ in 0..parts {
        if !over_part(rt, file, &mut c, &mut note) {
            return None;
        }
        if c.refused.is_some() {
            break;
        }
    }
    Some(c)
}

// Goes over the records, then back to the first to draw them.
#[inline(never)]
fn draw_parts(rt: &HostRuntime, file: &mut File, t: Tween, parts: u64) {
    let Some(seen) = over_parts(rt, file, parts, t, |_| {}) else {
        end_unreadable();
        return;
    };
    let Ok(5) = file.seek(SeekFrom::Start(5)) else {
        unread(rt);
        return;
    };
    let frame = frame_of(&seen);
    let mut columns = [Column::empty(); COLUMNS];
    let Some(c) = over_parts(rt, file, parts, t, |c| note(&mut columns, &frame, c)) else {
        end_unreadable();
        return;
    };
    let table = Table {
        frame: &frame,
        columns: &columns,
    };
    print_log(rt, t, &table, &c);
}

// A file of so many bytes.
fn draw_bytes(rt: &HostRuntime, file: &mut File, t: Tween, length: u64) {
    match tools::read_head(rt, file, 2, Some(length)) {
        Ok(()) => match length.checked_sub(5) {
            Some(bytes) => draw_parts(rt, file, t, bytes / 65536 + 1),
            None => unread(rt),
        },
        Err(HeadError::Refused(refusal)) => refuse(rt, 2, refusal),
        Err(HeadError::Empty) => refuse(rt, 2, Refusal::WrongMark),
        Err(HeadError::Unreadable) => end_unreadable(),
    }
}

// Draws the log on an open file.
pub fn draw_log(rt: &HostRuntime, file: &mut File, t: Tween) {
    match tools::length_of(file) {
        Some(length) => draw_bytes(rt, file, t, length),
        None => {
            tools::say_argument(rt, STDERR_FILENO, 2);
            tools::say(
                STDERR_FILENO,
                b": a log is read twice, so it has to be a file and no pipe\n",
            );
            end_unreadable();
        }
    }
}
