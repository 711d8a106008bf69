// The calls of a tween.
use crate::call::TweenCall;
use refusal::{Refusal, Rejected};
use rows::{
    Row, accepted, answer_row, count_word, float_at, floats_at, kept, length_at, mark_words, marks,
    put_list, put_tween, refused, tween_row, unknown,
};
use steps::{Run, run_steps};
use tween::{Tween, TweenSnapshot, Updated};
use units::Progress;
use words::{LaxTween, flag_word, state_word, tween_of};

fn put_snapshot(now: TweenSnapshot) -> Row {
    accepted()
        .put_float(now.elapsed)
        .put_float(now.delay_elapsed)
        .put(state_word(now.state))
        .put(now.loop_count)
        .put(flag_word(now.ping_pong_reverse))
}

fn snapped(a: Result<TweenSnapshot, Refusal>) -> Row {
    match a {
        Ok(now) => put_snapshot(now),
        Err(refusal) => refused(refusal),
    }
}

// came is the row of the tween that the call was given.
fn changed(came: Row, a: Result<Tween, Rejected<Tween>>) -> Row {
    match a {
        Ok(tween) => put_tween(accepted(), tween),
        Err(rejected) => kept(refused(rejected.refusal), tween_row(rejected.value), came),
    }
}

fn updated(came: Row, a: Result<Updated, Rejected<Tween>>) -> Row {
    match a {
        Ok(u) => put_tween(accepted().put(u.folds).put(flag_word(u.running)), u.tween),
        Err(rejected) => kept(refused(rejected.refusal), tween_row(rejected.value), came),
    }
}

fn outcome_number(outcome: Result<(), Refusal>) -> u32 {
    match outcome {
        Ok(()) => 0,
        Err(refusal) => refusal.number(),
    }
}

// Where no step was taken the tween is kept.
fn put_run(came: Row, a: Run) -> Row {
    let head = Row::empty()
        .put(outcome_number(a.outcome))
        .put(count_word(a.done));
    if a.done == 0 {
        return kept(head, tween_row(a.tween), came);
    }
    put_tween(head, a.tween)
}

// The steps stand behind the lengths of the three lists.
fn run(t: Tween, words: [u32; 1024]) -> Row {
    let length = length_at(words, 0);
    let values_length = length_at(words, 1);
    let folds_length = length_at(words, 2);
    let steps = floats_at(words, 3);
    let mut values = marks();
    let mut folds = mark_words();
    let a = run_steps(
        t,
        &steps[..length],
        &mut values[..values_length],
        &mut folds[..folds_length],
    );
    let p = put_list(put_run(tween_row(t), a), &values[..values_length]);
    put_list(p, &folds[..folds_length])
}

fn known(call: TweenCall, t: Tween, words: [u32; 1024]) -> Row {
    let x = float_at(words, 0);
    match call {
        TweenCall::Value => answer_row(t.value()),
        TweenCall::Progress => answer_row(t.progress()),
        TweenCall::EasedProgress => answer_row(t.eased_progress()),
        TweenCall::Snapshot => snapped(t.snapshot()),
        TweenCall::PlaybackDuration => answer_row(t.playback_duration()),
        TweenCall::Reset => changed(tween_row(t), t.reset()),
        TweenCall::Seek => changed(tween_row(t), t.seek(Progress(x))),
        TweenCall::Reverse => changed(tween_row(t), t.reverse()),
        TweenCall::Pause => changed(tween_row(t), t.pause()),
        TweenCall::Resume => changed(tween_row(t), t.resume()),
        TweenCall::Update => updated(tween_row(t), t.update(x)),
        TweenCall::Run => run(t, words),
    }
}

pub fn new(words: [u32; 1024]) -> Row {
    tween_row(Tween::new(float_at(words, 0), float_at(words, 1)))
}

pub fn answer(call: TweenCall, w: LaxTween, words: [u32; 1024]) -> Row {
    match tween_of(w) {
        Some(t) => known(call, t, words),
        None => unknown(),
    }
}
