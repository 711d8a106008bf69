// The answer, a sentence each. A sentence is true of every log that leads to it: the numbers have 16 bits, and
// of what they can't show the last one tells.
use crate::judged::{begins_late, loss_from};
use crate::listed::{list_lines, made_line, missing_line, twice_line};
use crate::put::line_so_far;
use crate::walk::Walk;
use std::rt::HostRuntime;

// The passes of each update of more than one, as far as they are known.
fn passes(rt: &HostRuntime, w: &Walk) {
    let s = &w.survey;
    if s.counts.many == 0 {
        let none = "answer no update that was replayed made more than one pass";
        line_so_far(rt, none, w.is_stopped());
        return;
    }
    let gap = s.lists.gaps[0].map(|one| one.place);
    let repeat = s.lists.repeats[0].map(|one| one.place);
    let loss = loss_from(w.first, gap, repeat);
    list_lines(
        rt,
        &s.lists.many,
        s.counts.many,
        |rt, one| made_line(rt, one, loss),
        "answer and more updates of more than one pass in the replay",
    );
}

// A log from its beginning has the number 0 first.
fn before_first(rt: &HostRuntime, first: Option<u16>) {
    match first {
        Some(number) if number > 0 => {
            let _ = println!(rt;
                "answer the first record has the number {number} and not 0: \
                what came before it is not in this log"
            );
        }
        _ => {}
    }
}

// Each gap, and each repeat, of which nothing can be known.
fn unknown(rt: &HostRuntime, w: &Walk) {
    let s = &w.survey;
    list_lines(
        rt,
        &s.lists.gaps,
        s.counts.gaps,
        missing_line,
        "answer and more such gaps, of which nothing can be known",
    );
    list_lines(
        rt,
        &s.lists.repeats,
        s.counts.repeats,
        twice_line,
        "answer and more such repeats, of which the numbers can't tell",
    );
}

// What is missing, or may be.
fn losses(rt: &HostRuntime, w: &Walk) {
    before_first(rt, w.first);
    unknown(rt, w);
    let is_gapless = (w.survey.counts.gaps == 0) & (w.survey.counts.repeats == 0);
    if is_gapless {
        let none = "answer no gap in the numbers from the first record to the last";
        line_so_far(rt, none, w.is_stopped());
    }
    if !is_gapless | begins_late(w.first) {
        let _ = println!(rt;
            "answer behind a gap, a repeat or a lost beginning the tween and its folds are the replay's: \
            the pump's may differ"
        );
    }
}

pub fn answers(rt: &HostRuntime, w: &Walk) {
    if w.survey.counts.records == 0 {
        line_so_far(rt, "answer no record was replayed", w.is_stopped());
        return;
    }
    passes(rt, w);
    losses(rt, w);
    let _ = println!(rt;
        "answer the numbers can't show a loss of exactly 65536 records in one place, or of a multiple of it, \
        nor any behind the last record"
    );
}
