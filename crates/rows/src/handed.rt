// Records that the library hands back, as words of the list.
ghost use Rattle.std.specs.Prelude.{◌≡◌, ◌≤◌, take};
ghost use Rattle.words.specs.Tweens.{tween_words};
ghost use Rattle.words.specs.Tracks.{track_words};
ghost use Rattle.rows.specs.Words.{put_all, row_of};
ghost use Rattle.rows.specs.Written.{easing_list, settings_list, tween_list, frame_list, frames_list, track_list};

use crate::entries::Row;
use keyframe::Track;
use tween::Tween;
use words::{LaxEasing, LaxKeyframe, LaxTrack, LaxTween, places, track_words, tween_words};

pub fn put_easing(before: Row, e: LaxEasing) -> Row
    ensures { result ≡ put_all before (easing_list e) }
{
    before
        .put(e.kind)
        .put_float(e.a)
        .put_float(e.b)
        .put_float(e.c)
        .put_float(e.d)
        .put(e.count)
}

// What stays while a tween runs.
fn put_settings(before: Row, w: LaxTween) -> Row
    ensures { result ≡ put_all before (settings_list w) }
{
    let front = before
        .put_float(w.start)
        .put_float(w.end)
        .put_float(w.duration);
    put_easing(front, w.easing)
        .put_float(w.delay)
        .put_float(w.time_scale)
        .put(w.looping.mode)
        .put(w.looping.passes)
}

pub fn put_tween(before: Row, t: Tween) -> Row
    ensures { result ≡ put_all before (tween_list (tween_words t)) }
{
    let w = tween_words(t);
    put_settings(before, w)
        .put_float(w.elapsed)
        .put_float(w.delay_elapsed)
        .put(w.state)
        .put(w.loop_count)
        .put(w.ping_pong_reverse)
}

pub fn tween_row(t: Tween) -> Row
    ensures { result ≡ row_of (tween_list (tween_words t)) }
{
    put_tween(Row::empty(), t)
}

fn put_frame(before: Row, k: LaxKeyframe) -> Row
    ensures { result ≡ put_all before (frame_list k) }
{
    put_easing(before.put_float(k.time).put_float(k.value), k.easing)
}

fn put_frames(before: Row, frames: [LaxKeyframe; 64], count: usize) -> Row
    requires { count ≤ 64 }
    ensures { result ≡ put_all before (frames_list (take count frames)) }
{
    let mut p = before;
    for k in &frames[..count] {
        p = put_frame(p, *k);
    }
    p
}

// Its head, then its frames. came is the track that the call was given.
pub fn put_track(before: Row, came: LaxTrack, t: Track) -> Row
    ensures { result ≡ put_all before (track_list (track_words came.frames t)) }
{
    let w = track_words(came.frames, t);
    let head = before
        .put(w.count)
        .put_float(w.elapsed)
        .put(w.looping.mode)
        .put(w.looping.passes)
        .put(w.loop_count)
        .put(w.complete);
    put_frames(head, w.frames, places(w.count as usize))
}
