// Lists of records, a line each, cut behind the first 20.
use std::rt::HostRuntime;
use survey::Seen;
use tools::{STDOUT_FILENO, say_float};

pub fn gap_line(rt: &HostRuntime, one: &Seen) {
    let _ = println!(rt;
        "gap {} missing by the numbers before record {}: number {} follows {}",
        one.gap, one.place, one.number, one.last
    );
}

pub fn repeat_line(rt: &HostRuntime, one: &Seen) {
    let _ = println!(rt; "repeat record {}: again number {}", one.place, one.number);
}

fn by_step(rt: &HostRuntime, step: f32, text: &str) {
    let _ = print!(rt; ", by its step of ");
    say_float(STDOUT_FILENO, step);
    let _ = println!(rt; "{text}");
}

// loss: the place of the first record behind what is missing or may be. Behind a loss the replay's tween may not
// be the pump's.
pub fn made_line(rt: &HostRuntime, one: &Seen, loss: Option<u64>) {
    let (folds, place) = (one.folds, one.place);
    match loss {
        Some(loss) if loss <= place => {
            let _ = print!(rt; "answer the replay makes {folds} passes at record {place}");
            by_step(
                rt,
                one.step,
                " s: the pump's may differ, by what is missing before it or may be",
            );
        }
        _ => {
            let _ = print!(rt;
                "answer as far as the log shows, the {folds} passes of record {place} were made"
            );
            by_step(rt, one.step, " s: the numbers show no loss before it");
        }
    }
}

pub fn missing_line(rt: &HostRuntime, one: &Seen) {
    let records = if one.gap == 1 {
        "record is"
    } else {
        "records are"
    };
    let _ = println!(rt;
        "answer by the numbers {} {records} missing before record {}, or 65536 more, and so on: \
        what was done there can't be known",
        one.gap, one.place
    );
}

pub fn twice_line(rt: &HostRuntime, one: &Seen) {
    let _ = println!(rt;
        "answer record {} repeats the number before it: by the numbers it was written twice, or 65535 records \
        are missing, or 65536 more, and so on: they can't tell which, and it was not replayed",
        one.place
    );
}

// A line for each that is listed, and how many more there are.
pub fn list_lines<F: Fn(&HostRuntime, &Seen)>(
    rt: &HostRuntime,
    list: &[Option<Seen>; 20],
    count: u64,
    line: F,
    more: &str,
)
    requires { F.IsAlwaysCallable line }
{
    for place in list {
        if let Some(one) = place {
            line(rt, one);
        }
    }
    if count > 20 {
        let _ = println!(rt; "{more}: {}", count - 20);
    }
}
