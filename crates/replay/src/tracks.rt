// The calls of a track.
use crate::call::TrackCall;
use keyframe::{Track, Updated};
use refusal::{Refusal, Rejected};
use rows::{
    Row, accepted, answer_row, count_word, easing_at, flag_row, float_at, floats_at, kept,
    length_at, loop_at, marks, put_list, put_track, refused, unknown,
};
use units::{Progress, Seconds};
use words::{LaxTrack, easing_of, is_known, loop_of, track_of};

// The head's first word is the call's number.
fn put_back(came: LaxTrack, head: Row, t: Track) -> Row {
    if head.list[0] == 0 {
        return put_track(head, came, t);
    }
    kept(
        head,
        put_track(Row::empty(), came, t),
        put_track(Row::empty(), came, track_of(came)),
    )
}

fn changed(came: LaxTrack, a: Result<Track, Rejected<Track>>) -> Row {
    match a {
        Ok(track) => put_back(came, accepted(), track),
        Err(rejected) => put_back(came, refused(rejected.refusal), rejected.value),
    }
}

fn updated(came: LaxTrack, a: Result<Updated, Rejected<Track>>) -> Row {
    match a {
        Ok(u) => put_back(came, flag_row(u.running), u.track),
        Err(rejected) => put_back(came, refused(rejected.refusal), rejected.value),
    }
}

fn push_eased(w: LaxTrack, words: [u32; 1024]) -> Row {
    match easing_of(easing_at(words, 2)) {
        Some(e) => changed(
            w,
            track_of(w).push_eased(float_at(words, 0), float_at(words, 1), e),
        ),
        None => unknown(),
    }
}

fn looping(w: LaxTrack, words: [u32; 1024]) -> Row {
    match loop_of(loop_at(words, 0)) {
        Some(mode) => changed(w, track_of(w).looping(mode)),
        None => unknown(),
    }
}

// The times stand behind the lengths of the two lists.
fn values_at(t: Track, words: [u32; 1024]) -> Row {
    let length = length_at(words, 0);
    let room = length_at(words, 1);
    let times = floats_at(words, 2);
    let mut values = marks();
    let answer = t.fill_values(&times[..length], &mut values[..room]);
    let p = Row::empty()
        .put(answer.refusal)
        .put(count_word(answer.filled));
    put_list(p, &values[..room])
}

fn known(call: TrackCall, w: LaxTrack, words: [u32; 1024]) -> Row {
    let t = track_of(w);
    let (x, y) = (float_at(words, 0), float_at(words, 1));
    match call {
        TrackCall::Push => changed(w, t.push(x, y)),
        TrackCall::PushEased => push_eased(w, words),
        TrackCall::Looping => looping(w, words),
        TrackCall::ValueAt => answer_row(t.value_at(Seconds(x))),
        TrackCall::Value => answer_row(t.value()),
        TrackCall::ValuesAt => values_at(t, words),
        TrackCall::Update => updated(w, t.update(x)),
        TrackCall::ActiveTime => answer_row(t.active_time()),
        TrackCall::Duration => answer_row(t.duration()),
        TrackCall::PlaybackDuration => answer_row(t.playback_duration()),
        TrackCall::Progress => answer_row(t.progress()),
        TrackCall::IsComplete => answer_row(t.is_complete()),
        TrackCall::Reset => changed(w, t.reset()),
        TrackCall::SeekTo => changed(w, t.seek_to(Progress(x))),
    }
}

pub fn new(came: LaxTrack) -> Row {
    put_track(Row::empty(), came, Track::new())
}

pub fn answer(call: TrackCall, w: LaxTrack, words: [u32; 1024]) -> Row {
    if is_known(w) {
        return known(call, w, words);
    }
    unknown()
}
