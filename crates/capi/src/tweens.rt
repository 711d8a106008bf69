// The calls of a tween, lent as 18 words. Each is a match on the tween that is read: a closure in its place would
// have to capture the words or the place that the call writes, and say no less.
ghost use Rattle.std.specs.Prelude.{◌≡◌};
ghost use Rattle.capi.specs.Answers.{answering, accepted};
ghost use Rattle.capi.specs.Tweens.{lax_tween_new, lax_tween_value, lax_tween_progress, lax_tween_eased_progress, lax_tween_snapshot, lax_tween_playback_duration, lax_tween_reset, lax_tween_seek, lax_tween_reverse, lax_tween_pause, lax_tween_resume, lax_tween_update, ran_words, ran_out, lax_tween_run};
ghost use Rattle.steps.specs.Course.{outcome_number};

use crate::answers::{
    UNKNOWN_WORD, outcome_number, put, put_found, put_plain, put_snapshot, put_tween,
};
use steps::{Run, run_steps};
use tween::{Tween, Updated};
use tween_words::{Stepped, Valued, step_on, value};
use units::Progress;
use words::{flag_word, store_tween, tween_in, tween_of, tween_words};

pub fn lax_tween_new(w: &mut [u32; 18], start: f32, end: f32) -> u32
    ensures { answering result w.new ≡ accepted (lax_tween_new start end) }
{
    let t = tween_words(Tween::new(start, end));
    let e = t.easing;
    let mode = t.looping;
    *w = [
        math::bits(t.start),
        math::bits(t.end),
        math::bits(t.duration),
        e.kind,
        math::bits(e.a),
        math::bits(e.b),
        math::bits(e.c),
        math::bits(e.d),
        e.count,
        math::bits(t.delay),
        math::bits(t.time_scale),
        mode.mode,
        mode.passes,
        math::bits(t.elapsed),
        math::bits(t.delay_elapsed),
        t.state,
        t.loop_count,
        t.ping_pong_reverse,
    ];
    0
}

// By way of the library's tween.
fn value_in(w: &[u32; 18], out: &mut [u32; 4]) -> u32
    ensures { answering result out.new ≡ lax_tween_value w.now out.old }
{
    match tween_of(tween_in(w)) {
        Some(t) => put_found(t.value(), out),
        None => UNKNOWN_WORD,
    }
}

pub fn lax_tween_value(w: &[u32; 18], out: &mut [u32; 4]) -> u32
    ensures { answering result out.new ≡ lax_tween_value w.now out.old }
{
    match value(w) {
        Some(Valued::Plain(v)) => put_plain(v, out),
        Some(Valued::Searched(found)) => put_found(Ok(found), out),
        None => value_in(w, out),
    }
}

pub fn lax_tween_progress(w: &[u32; 18], out: &mut f32) -> u32
    ensures { answering result out.new ≡ lax_tween_progress w.now out.old }
{
    match tween_of(tween_in(w)) {
        Some(t) => put(t.progress().map(|p| p.0), out),
        None => UNKNOWN_WORD,
    }
}

pub fn lax_tween_eased_progress(w: &[u32; 18], out: &mut [u32; 4]) -> u32
    ensures { answering result out.new ≡ lax_tween_eased_progress w.now out.old }
{
    match tween_of(tween_in(w)) {
        Some(t) => put_found(t.eased_progress(), out),
        None => UNKNOWN_WORD,
    }
}

pub fn lax_tween_snapshot(w: &[u32; 18], out: &mut [u32; 5]) -> u32
    ensures { answering result out.new ≡ lax_tween_snapshot w.now out.old }
{
    match tween_of(tween_in(w)) {
        Some(t) => put_snapshot(t.snapshot(), out),
        None => UNKNOWN_WORD,
    }
}

pub fn lax_tween_playback_duration(w: &[u32; 18], out: &mut f32) -> u32
    ensures { answering result out.new ≡ lax_tween_playback_duration w.now out.old }
{
    match tween_of(tween_in(w)) {
        Some(t) => put(t.playback_duration().map(|s| s.0), out),
        None => UNKNOWN_WORD,
    }
}

pub fn lax_tween_reset(w: &mut [u32; 18]) -> u32
    ensures { answering result w.new ≡ lax_tween_reset w.old }
{
    match tween_of(tween_in(w)) {
        Some(t) => put_tween(t.reset(), w),
        None => UNKNOWN_WORD,
    }
}

pub fn lax_tween_seek(w: &mut [u32; 18], p: f32) -> u32
    ensures { answering result w.new ≡ lax_tween_seek w.old p }
{
    match tween_of(tween_in(w)) {
        Some(t) => put_tween(t.seek(Progress(p)), w),
        None => UNKNOWN_WORD,
    }
}

pub fn lax_tween_reverse(w: &mut [u32; 18]) -> u32
    ensures { answering result w.new ≡ lax_tween_reverse w.old }
{
    match tween_of(tween_in(w)) {
        Some(t) => put_tween(t.reverse(), w),
        None => UNKNOWN_WORD,
    }
}

pub fn lax_tween_pause(w: &mut [u32; 18]) -> u32
    ensures { answering result w.new ≡ lax_tween_pause w.old }
{
    match tween_of(tween_in(w)) {
        Some(t) => put_tween(t.pause(), w),
        None => UNKNOWN_WORD,
    }
}

pub fn lax_tween_resume(w: &mut [u32; 18]) -> u32
    ensures { answering result w.new ≡ lax_tween_resume w.old }
{
    match tween_of(tween_in(w)) {
        Some(t) => put_tween(t.resume(), w),
        None => UNKNOWN_WORD,
    }
}

// By way of the library's tween.
fn update_in(w: &mut [u32; 18], step: f32, out: &mut [u32; 2]) -> u32
    ensures { answering result (record { words = w.new; out = out.new }) ≡ lax_tween_update w.old step out.old }
{
    match tween_of(tween_in(w)) {
        Some(t) => match t.update(step) {
            Ok(
                Updated {
                    tween,
                    folds,
                    running,
                },
            ) => {
                store_tween(w, tween);
                *out = [folds, flag_word(running)];
                0
            }
            Err(rejected) => rejected.refusal.number(),
        },
        None => UNKNOWN_WORD,
    }
}

// out: the folds, and 1 where the tween is not completed.
pub fn lax_tween_update(w: &mut [u32; 18], step: f32, out: &mut [u32; 2]) -> u32
    ensures { answering result (record { words = w.new; out = out.new }) ≡ lax_tween_update w.old step out.old }
{
    match step_on(w, step) {
        Some(Stepped { folds, running }) => {
            *out = [folds, flag_word(running)];
            0
        }
        None => update_in(w, step, out),
    }
}

fn put_run(run: Run, w: &mut [u32; 18], out: &mut [usize; 2]) -> u32
    ensures number { result ≡ outcome_number run.outcome }
    ensures words { w.new ≡ ran_words w.old run }
    ensures counts { out.new ≡ ran_out out.old run }
{
    // C's answer is the number, so that is what is asked below.
    let outcome = run.outcome;
    let number = outcome_number(outcome);
    if run.done == 0 {
        if number == 0 {
            *out = [run.done, run.unsettled];
        }
        return number;
    }
    let reached = run.tween;
    store_tween(w, reached);
    *out = [run.done, run.unsettled];
    number
}

// The value after each step and the folds of each go into the fronts of values and folds. out: how many
// steps were taken, and how many of the values are not settled.
pub fn lax_tween_run(
    w: &mut [u32; 18],
    steps: &[f32],
    values: &mut [f32],
    folds: &mut [u32],
    out: &mut [usize; 2],
) -> u32
    ensures { answering result (record { words = w.new; values = values.new; folds = folds.new; out = out.new }) ≡ lax_tween_run w.old steps.now values.old folds.old out.old }
{
    match tween_of(tween_in(w)) {
        Some(t) => put_run(run_steps(t, steps, values, folds), w, out),
        None => UNKNOWN_WORD,
    }
}
