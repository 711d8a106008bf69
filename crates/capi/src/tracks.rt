// The calls of a track, lent as 518 words. Each answers 0, or the number of its refusal, and then it has
// written nothing.
ghost use Rattle.std.specs.Prelude.{◌≡◌, ◌∷◌, [], ℕ, List, length, MatchResult};
ghost use Rattle.keyframe.specs.Inner.{push_outcome};
ghost use Rattle.keyframe.specs.Limits.{base_of};
ghost use Rattle.keyframe.specs.Sampling.{value_at_of};
ghost use Rattle.words.specs.Lent.{clock_into, float_at, frame_at, loop_at};
ghost use Rattle.words.specs.Modes.{flag_word, loop_from};
ghost use Rattle.words.specs.Tracks.{frame_read};
ghost use Rattle.track_words.specs.Checking.{check_of};
ghost use Rattle.track_words.specs.Pushing.{stored_row};
ghost use Rattle.track_words.specs.Reading.{track_of};
ghost use Rattle.capi.specs.Answers.{accepted, faulted};
ghost use Rattle.capi.specs.Tracks.{loop_into, lax_track_new, lax_track_push, eased_row, plain_row, lax_track_looping, lax_track_value_at, lax_track_value, lax_track_values_at, lax_track_active_time, lax_track_duration, lax_track_playback_duration, lax_track_progress, lax_track_is_complete, lax_track_reset, lax_track_seek_to, lax_track_update};

use crate::answers::{UNKNOWN_WORD, put_flag, put_found};
use bezier::Found;
use frames::Keyframe;
use keyframe::{Clock, Ticked};
use loop_mode::Loop;
use refusal::Refusal;
use track_words::{Checked, check};
use words::{Fault, flag_word, frame_in, loop_in, loop_of, read_frame};

pub fn lax_track_new(w: &mut [u32; 518]) -> u32
    ensures number { result ≡ 0 }
    ensures words { w.new ≡ lax_track_new }
{
    *w = [0u32; 518];
    0
}

// Whether the track takes the mode.
fn takes_mode(w: &[u32; 518], looping: Loop) -> Result<(), Fault>
    ensures { (m : List ℕ) → loop_from (loop_at m 0) ≡ Some looping → MatchResult result (λ _. accepted (loop_into w.now m) ≡ lax_track_looping w.now m) (λ fault. faulted w.now fault ≡ lax_track_looping w.now m) }
{
    let track = Checked::of(w)?;
    keyframe::looping_outcome(looping, track.duration())?;
    Ok(())
}

pub fn lax_track_looping(w: &mut [u32; 518], mode: &[u32; 2]) -> u32
    ensures number { result ≡ (lax_track_looping w.old mode.now).number }
    ensures words { w.new ≡ (lax_track_looping w.old mode.now).left }
{
    let Some(looping) = loop_of(loop_in(mode)) else {
        return UNKNOWN_WORD;
    };
    if let Err(fault) = takes_mode(w, looping) {
        return fault.number();
    }
    w[514] = mode[0];
    w[515] = mode[1];
    w[517] = 0;
    0
}

// Two calls ask for it, each at a time of its own.
fn sample(track: Checked<'_>, secs: f32) -> Result<Found, Refusal>
    ensures { result ≡ value_at_of (track_of track.entry.words.now) secs }
{
    keyframe::sample_outcome(track_words::count(track.words))?;
    Ok(track.value_at(secs))
}

pub fn lax_track_value_at(w: &[u32; 518], secs: f32, out: &mut [u32; 4]) -> u32
    ensures number { result ≡ (lax_track_value_at w.now secs out.old).number }
    ensures words { out.new ≡ (lax_track_value_at w.now secs out.old).left }
{
    match Checked::of(w) {
        Ok(track) => put_found(sample(track, secs), out),
        Err(fault) => fault.number(),
    }
}

pub fn lax_track_value(w: &[u32; 518], out: &mut [u32; 4]) -> u32
    ensures number { result ≡ (lax_track_value w.now out.old).number }
    ensures words { out.new ≡ (lax_track_value w.now out.old).left }
{
    match Checked::of(w) {
        Ok(track) => put_found(sample(track, track.active_time()), out),
        Err(fault) => fault.number(),
    }
}

pub fn lax_track_active_time(w: &[u32; 518], out: &mut f32) -> u32
    ensures number { result ≡ (lax_track_active_time w.now out.old).number }
    ensures place { out.new ≡ (lax_track_active_time w.now out.old).left }
{
    match Checked::of(w) {
        Ok(track) => {
            *out = track.active_time();
            0
        }
        Err(fault) => fault.number(),
    }
}

pub fn lax_track_duration(w: &[u32; 518], out: &mut f32) -> u32
    ensures number { result ≡ (lax_track_duration w.now out.old).number }
    ensures place { out.new ≡ (lax_track_duration w.now out.old).left }
{
    match Checked::of(w) {
        Ok(track) => {
            *out = track.duration();
            0
        }
        Err(fault) => fault.number(),
    }
}

pub fn lax_track_playback_duration(w: &[u32; 518], out: &mut f32) -> u32
    ensures number { result ≡ (lax_track_playback_duration w.now out.old).number }
    ensures place { out.new ≡ (lax_track_playback_duration w.now out.old).left }
{
    match Checked::of(w) {
        Ok(track) => {
            *out = track.playback_duration();
            0
        }
        Err(fault) => fault.number(),
    }
}

pub fn lax_track_progress(w: &[u32; 518], out: &mut f32) -> u32
    ensures number { result ≡ (lax_track_progress w.now out.old).number }
    ensures place { out.new ≡ (lax_track_progress w.now out.old).left }
{
    match Checked::of(w) {
        Ok(track) => {
            *out = track.progress();
            0
        }
        Err(fault) => fault.number(),
    }
}

pub fn lax_track_is_complete(w: &[u32; 518], out: &mut u32) -> u32
    ensures number { result ≡ (lax_track_is_complete w.now out.old).number }
    ensures place { out.new ≡ (lax_track_is_complete w.now out.old).left }
{
    match Checked::of(w) {
        Ok(track) => put_flag(track_words::is_done(track.words), out),
        Err(fault) => fault.number(),
    }
}

pub fn lax_track_reset(w: &mut [u32; 518]) -> u32
    ensures number { result ≡ (lax_track_reset w.old).number }
    ensures words { w.new ≡ (lax_track_reset w.old).left }
{
    if let Err(fault) = check(w) {
        return fault.number();
    }
    track_words::store_clock(w, Clock::new(0.0, 0, false));
    0
}

// What a seek would leave.
fn sought(w: &[u32; 518], p: f32) -> Result<Clock, Fault>
    ensures { MatchResult result (λ clock. accepted (clock_into w.now clock) ≡ lax_track_seek_to w.now p) (λ fault. faulted w.now fault ≡ lax_track_seek_to w.now p) }
{
    let track = Checked::of(w)?;
    keyframe::seek_outcome(p)?;
    Ok(track.seek(math::clamp01(p)))
}

pub fn lax_track_seek_to(w: &mut [u32; 518], p: f32) -> u32
    ensures number { result ≡ (lax_track_seek_to w.old p).number }
    ensures words { w.new ≡ (lax_track_seek_to w.old p).left }
{
    match sought(w, p) {
        Ok(clock) => {
            track_words::store_clock(w, clock);
            0
        }
        Err(fault) => fault.number(),
    }
}

// What a step would leave.
fn ticked(w: &[u32; 518], step: f32) -> Result<Ticked, Fault>
    ensures { (out : ℕ) → MatchResult result (λ t. accepted (record { words = clock_into w.now t.clock; running = flag_word t.running }) ≡ lax_track_update w.now step out) (λ fault. faulted (record { words = w.now; running = out }) fault ≡ lax_track_update w.now step out) }
{
    let track = Checked::of(w)?;
    Ok(track.tick(step)?)
}

// running: 1 where the track is not complete, and has two frames or more.
pub fn lax_track_update(w: &mut [u32; 518], step: f32, out: &mut u32) -> u32
    ensures number { result ≡ (lax_track_update w.old step out.old).number }
    ensures words { w.new ≡ (lax_track_update w.old step out.old).left.words }
    ensures place { out.new ≡ (lax_track_update w.old step out.old).left.running }
{
    match ticked(w, step) {
        Ok(Ticked { clock, running }) => {
            track_words::store_clock(w, clock);
            *out = flag_word(running);
            0
        }
        Err(fault) => fault.number(),
    }
}

// Whether the track takes the frame, if there is room.
fn takes_frame(w: &[u32; 518], k: Keyframe, time: f32) -> Result<(), Fault>
    ensures { MatchResult result (λ _. (check_of w.now ≡ 0) × (let t = track_of w.now in Ok tt ≡ push_outcome k.easing t.looping (base_of t) time k.value)) (λ fault. (row : List ℕ) → frame_read (frame_at row 0) ≡ Some k → time ≡ float_at (stored_row row) 0 → faulted w.now fault ≡ lax_track_push w.now row) }
{
    let track = Checked::of(w)?;
    let easing = k.easing;
    track.push_outcome(easing, time, k.value)?;
    Ok(())
}

// A frame at the time of another replaces it.
fn push_row(w: &mut [u32; 518], row: &[u32; 8]) -> u32
    ensures number { result ≡ (lax_track_push w.old row.now).number }
    ensures words { w.new ≡ (lax_track_push w.old row.now).left }
{
    let Some(k) = read_frame(frame_in(row)) else {
        return UNKNOWN_WORD;
    };
    let stored = track_words::stored_row(row);
    if let Err(fault) = takes_frame(w, k, math::of_bits(stored[0])) {
        return fault.number();
    }
    let full = !track_words::put(w, &stored);
    if let Err(refusal) = keyframe::room_outcome(full) {
        return refusal.number();
    }
    0
}

pub fn lax_track_push(w: &mut [u32; 518], time: f32, value: f32) -> u32
    ensures number { result ≡ (lax_track_push w.old (plain_row time value)).number }
    ensures words { w.new ≡ (lax_track_push w.old (plain_row time value)).left }
{
    let row = [math::bits(time), math::bits(value), 0, 0, 0, 0, 0, 0];
    push_row(w, &row)
}

pub fn lax_track_push_eased(w: &mut [u32; 518], time: f32, value: f32, e: &[u32; 6]) -> u32
    ensures number { result ≡ (lax_track_push w.old (eased_row time value e.now)).number }
    ensures words { w.new ≡ (lax_track_push w.old (eased_row time value e.now)).left }
{
    let row = [
        math::bits(time),
        math::bits(value),
        e[0],
        e[1],
        e[2],
        e[3],
        e[4],
        e[5],
    ];
    push_row(w, &row)
}

pub fn lax_track_push_frame(w: &mut [u32; 518], k: &[u32; 8]) -> u32
    ensures number { result ≡ (lax_track_push w.old k.now).number }
    ensures words { w.new ≡ (lax_track_push w.old k.now).left }
{
    push_row(w, k)
}

fn fill_checked(w: &[u32; 518], times: &[f32], out: &mut [f32]) -> Result<usize, Fault>
    ensures { (came : List ℕ) → MatchResult result (λ n. accepted (record { out = out.new; filled = length times.now ∷ n ∷ [] }) ≡ lax_track_values_at w.now times.now out.old came) (λ fault. faulted (record { out = out.new; filled = came }) fault ≡ lax_track_values_at w.now times.now out.old came) }
{
    let track = Checked::of(w)?;
    keyframe::fill_outcome(track_words::count(w), times.len(), out.len())?;
    Ok(track.fill(times, out))
}

// The value at each time goes into the front of out. filled: how many were written, and how many of them
// are not settled.
pub fn lax_track_values_at(
    w: &[u32; 518],
    times: &[f32],
    out: &mut [f32],
    filled: &mut [usize; 2],
) -> u32
    ensures number { result ≡ (lax_track_values_at w.now times.now out.old filled.old).number }
    ensures output { out.new ≡ (lax_track_values_at w.now times.now out.old filled.old).left.out }
    ensures places { filled.new ≡ (lax_track_values_at w.now times.now out.old filled.old).left.filled }
{
    match fill_checked(w, times, out) {
        Ok(unsettled) => {
            *filled = [times.len(), unsettled];
            0
        }
        Err(fault) => fault.number(),
    }
}
