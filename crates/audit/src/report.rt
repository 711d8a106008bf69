// What was found, a line each.
use crate::answer::answers;
use crate::ending::End;
use crate::judged::end_of;
use crate::listed::{gap_line, list_lines, repeat_line};
use crate::put::float_line;
use crate::walk::Walk;
use bezier::Found;
use refusal::Refusal;
use std::rt::HostRuntime;
use survey::{Seen, Survey};
use tools::STDOUT_FILENO;
use tween::Tween;

fn most_lines(rt: &HostRuntime, most: &[Option<Seen>; 5]) {
    for place in most {
        if let Some(one) = place {
            let _ = print!(rt; "most folds {}, record {}", one.folds, one.place);
            float_line(rt, ", step ", one.step);
        }
    }
}

fn records_lines(rt: &HostRuntime, w: &Walk) {
    let _ = println!(rt; "records {}", w.survey.counts.records);
    if let (Some(first), Some(last)) = (w.first, w.survey.reached.last) {
        let _ = println!(rt; "numbers {first} to {last}");
    }
}

fn lists_lines(rt: &HostRuntime, s: &Survey) {
    let counts = s.counts;
    list_lines(
        rt,
        &s.lists.gaps,
        counts.gaps,
        gap_line,
        "gap and more such records",
    );
    let _ = println!(rt; "gaps {}", counts.gaps);
    let _ = println!(rt; "missing {} by the numbers", s.reached.missing);
    list_lines(
        rt,
        &s.lists.repeats,
        counts.repeats,
        repeat_line,
        "repeat and more such records",
    );
    let _ = println!(rt; "repeats {}", counts.repeats);
    let _ = println!(rt; "folds {}", s.reached.folds);
    most_lines(rt, &s.lists.most);
}

fn stopped_line(rt: &HostRuntime, s: &Survey) {
    if let Err(refusal) = s.outcome {
        let _ = print!(rt; "stopped at record {}: ", s.counts.records);
        tools::say_refusal(STDOUT_FILENO, refusal.number());
        let _ = println!(rt);
    }
}

fn value_line(rt: &HostRuntime, found: Result<Found, Refusal>) {
    match found {
        Ok(f) => float_line(rt, "tween value ", f.value),
        Err(refusal) => {
            let _ = println!(rt; "tween value refused {}", refusal.number());
        }
    }
}

fn tween_lines(rt: &HostRuntime, t: Tween) {
    let w = words::tween_words(t);
    let _ = print!(rt; "tween state ");
    tools::say_name(STDOUT_FILENO, names::state(w.state).as_bytes());
    let _ = println!(rt);
    float_line(rt, "tween elapsed ", w.elapsed);
    float_line(rt, "tween delay_elapsed ", w.delay_elapsed);
    let _ = println!(rt; "tween loop_count {}", w.loop_count);
    let _ = println!(rt;
        "tween reversed {}",
        if t.ping_pong_reverse { "yes" } else { "no" }
    );
    value_line(rt, t.value());
}

fn end_line(rt: &HostRuntime, w: &Walk) {
    let counts = w.survey.counts;
    match end_of(
        w.failed,
        w.survey.outcome,
        counts.gaps,
        counts.repeats,
        w.first,
    ) {
        End::Whole => {
            let _ = println!(rt; "end ok");
        }
        End::Lacking => {
            // a log that lacks a record has a first one
            let first = w.first.unwrap_or(0);
            let _ = println!(rt;
                "end gaps {} repeats {} first {first}",
                counts.gaps, counts.repeats
            );
        }
        End::Refused(refusal) => tools::end_refused(refusal.number()),
        End::Unreadable => tools::end_unreadable(),
    }
}

pub fn all(rt: &HostRuntime, w: &Walk) {
    records_lines(rt, w);
    lists_lines(rt, &w.survey);
    stopped_line(rt, &w.survey);
    tween_lines(rt, w.survey.reached.tween);
    answers(rt, w);
    end_line(rt, w);
}
