// An event log from a script, by the library's writer.
//
//     makelog SCRIPT LOG
//
// A line of SCRIPT is one of
//
//     step SECONDS [TIMES]
//     pause
//     resume
//     reset
//     drop N        the numbers of N records are counted, and the records are not written
//     repeat N      the record before is written N times more
//
// The whole script is read before LOG is opened. Where LOG is a pipe that nobody reads any more, nothing is
// said, and there is no last line. Else the last line is `end ok`, `end refused N` or
// `end unreadable`.
#![tactic(auto)]

mod order;
mod script;
mod sink;

use lines::Fault;
use refusal::Refusal;
use script::{Cause, ScriptError};
use sink::WriteError;
use tools::STDERR_FILENO;

// Whether the words are there to work on.
fn is_called(rt: &HostRuntime) -> bool {
    tools::has_words(
        rt,
        b"makelog",
        b"usage: makelog SCRIPT LOG\n",
        b"\n\
        Writes the event log of a script.\n\
        \n\
        SCRIPT  a line each: step SECONDS [TIMES], pause, resume, reset, drop N, repeat N\n\
        LOG     the file to write; what it held is lost\n\
        \n\
        The status of bin/makelog, and the last line:\n\
        0  end ok: the log is written\n\
        2  end refused N: a step is refused, by refusal N, and nothing is written\n\
        3  end unreadable: a file can't be read or written, or the script or the words are wrong\n\
        Where standard output can't be written the status is 3 too.\n\
        \n",
        3,
        3,
    )
}

fn wrong(rt: &HostRuntime, text: &[u8], fault: Fault) {
    tools::say_fault(rt, 1, text, fault);
    tools::end_unreadable();
}

fn refused(rt: &HostRuntime, line: u64, refusal: Refusal) {
    tools::say_argument(rt, STDERR_FILENO, 1);
    let _ = eprint!(rt; ", line {line}: refused ");
    tools::say_refusal(STDERR_FILENO, refusal.number());
    let _ = eprintln!(rt);
    tools::end_refused(refusal.number());
}

fn write(rt: &HostRuntime, text: &[u8]) {
    let Some(mut file) = tools::open_overwrite(rt, 2) else {
        tools::end_unreadable();
        return;
    };
    let written = sink::write_log(&mut file, text);
    drop(file);
    match written {
        Ok(records) => {
            let _ = println!(rt; "records {records}");
            let _ = println!(rt; "end ok");
        }
        Err(WriteError::Unread) => {}
        Err(WriteError::Failed) => {
            tools::say_argument(rt, STDERR_FILENO, 2);
            let _ = eprintln!(rt; ": the log can't be written");
            tools::end_unreadable();
        }
    }
}

fn run(rt: &HostRuntime, text: &[u8]) {
    match script::judge(text) {
        Ok(()) => write(rt, text),
        Err(ScriptError { line, cause }) => match cause {
            Cause::Wrong(mistake) => wrong(rt, text, Fault { line, mistake }),
            Cause::Refused(refusal) => refused(rt, line, refusal),
        },
    }
}

// What can't be written is left out; the last line tells how it ended.
fn main(rt: HostRuntime) {
    if !is_called(&rt) {
        return;
    }
    let mut buffer = io::large_buffer();
    match tools::read_text(&rt, 1, &mut buffer) {
        Ok(text) => run(&rt, text),
        Err(_) => tools::end_unreadable(),
    }
}
