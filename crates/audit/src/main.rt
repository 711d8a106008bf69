// Were those passes made, or did the export drop the records?
//
//     audit RAMP LOG
//
// RAMP is the text of a ramp, LOG an event log of any length. The report goes to standard output, what is
// wrong with a file to standard error. The last line of the report is one of
//
//     end ok
//     end gaps G repeats R first N
//     end refused N
//     end unreadable
#![tactic(auto)]

mod answer;
mod ending;
mod judged;
mod listed;
mod put;
mod report;
mod walk;

use refusal::Refusal;
use std::fs::File;
use std::rt::HostRuntime;
use tools::{HeadError, STDERR_FILENO, STDOUT_FILENO, end_refused, end_unreadable};
use tween::Tween;

// Whether the words are there to work on.
fn is_called(rt: &HostRuntime) -> bool {
    tools::has_words(
        rt,
        b"audit",
        b"usage: audit RAMP LOG\n",
        b"\n\
        Replays a log into a ramp, and says what its numbers show: which passes were made, what is missing.\n\
        \n\
        RAMP  a ramp as text: a name and its value to a line\n\
        LOG   an event log: a file, or a pipe as /dev/stdin\n\
        \n\
        The status of bin/audit, and the last line of the report:\n\
        0  end ok: no gap, no repeat, and the first number is 0\n\
        1  end gaps G repeats R first N: the numbers show a loss, or may hide one\n\
        2  end refused N: the ramp or the log is refused, by refusal N\n\
        3  end unreadable: a file can't be read or is no ramp, or the words are wrong\n\
        Where the report can't be written the status is 3 too.\n\
        \n",
        3,
        3,
    )
}

// A refusal before any record is replayed.
fn refused(rt: &HostRuntime, refusal: Refusal) {
    let _ = print!(rt; "refused ");
    tools::say_refusal(STDOUT_FILENO, refusal.number());
    let _ = println!(rt);
    end_refused(refusal.number());
}

// The log on an open file.
fn audit(rt: &HostRuntime, file: &mut File, t: Tween) {
    let length = tools::length_of(file);
    match tools::read_head(rt, file, 2, length) {
        Ok(()) => report::all(rt, &walk::all(rt, file, t, length)),
        Err(HeadError::Refused(refusal)) => refused(rt, refusal),
        Err(HeadError::Empty) => {
            tools::say_argument(rt, STDERR_FILENO, 2);
            tools::say(STDERR_FILENO, b": the log is empty\n");
            refused(rt, Refusal::WrongMark);
        }
        Err(HeadError::Unreadable) => end_unreadable(),
    }
}

// What can't be written is left out; the last line tells how it ended.
fn main(rt: HostRuntime) {
    if !is_called(&rt) {
        return;
    }
    let Some(t) = tools::read_ramp(&rt, 1) else {
        end_unreadable();
        return;
    };
    let Some(mut file) = tools::open_argument(&rt, 2) else {
        end_unreadable();
        return;
    };
    tools::say_ramp(STDOUT_FILENO, t);
    if tween::within(t) {
        audit(&rt, &mut file, t);
    } else {
        refused(&rt, Refusal::RecordBreaksLimit);
    }
}
