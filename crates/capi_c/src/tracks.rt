// The calls of a track, lent as 518 words. Each answers 0, or the number of its refusal, and then it has
// written nothing.
ghost use Rattle.std.specs.Prelude.{◌≡◌};
ghost use Rattle.capi.specs.Tracks.{lax_track_new, lax_track_push, eased_row, plain_row, lax_track_looping, lax_track_value_at, lax_track_value, lax_track_values_at, lax_track_active_time, lax_track_duration, lax_track_playback_duration, lax_track_progress, lax_track_is_complete, lax_track_reset, lax_track_seek_to, lax_track_update};

#[unsafe(no_mangle)]
pub extern "C" fn lax_track_new(w: &mut [u32; 518]) -> u32
    ensures number { result ≡ 0 }
    ensures words { w.new ≡ lax_track_new }
{
    capi::lax_track_new(w)
}

#[unsafe(no_mangle)]
pub extern "C" fn lax_track_looping(w: &mut [u32; 518], mode: &[u32; 2]) -> u32
    ensures number { result ≡ (lax_track_looping w.old mode.now).number }
    ensures words { w.new ≡ (lax_track_looping w.old mode.now).left }
{
    capi::lax_track_looping(w, mode)
}

#[unsafe(no_mangle)]
pub extern "C" fn lax_track_value_at(w: &[u32; 518], secs: f32, out: &mut [u32; 4]) -> u32
    ensures number { result ≡ (lax_track_value_at w.now secs out.old).number }
    ensures words { out.new ≡ (lax_track_value_at w.now secs out.old).left }
{
    capi::lax_track_value_at(w, secs, out)
}

#[unsafe(no_mangle)]
pub extern "C" fn lax_track_value(w: &[u32; 518], out: &mut [u32; 4]) -> u32
    ensures number { result ≡ (lax_track_value w.now out.old).number }
    ensures words { out.new ≡ (lax_track_value w.now out.old).left }
{
    capi::lax_track_value(w, out)
}

#[unsafe(no_mangle)]
pub extern "C" fn lax_track_active_time(w: &[u32; 518], out: &mut f32) -> u32
    ensures number { result ≡ (lax_track_active_time w.now out.old).number }
    ensures place { out.new ≡ (lax_track_active_time w.now out.old).left }
{
    capi::lax_track_active_time(w, out)
}

#[unsafe(no_mangle)]
pub extern "C" fn lax_track_duration(w: &[u32; 518], out: &mut f32) -> u32
    ensures number { result ≡ (lax_track_duration w.now out.old).number }
    ensures place { out.new ≡ (lax_track_duration w.now out.old).left }
{
    capi::lax_track_duration(w, out)
}

#[unsafe(no_mangle)]
pub extern "C" fn lax_track_playback_duration(w: &[u32; 518], out: &mut f32) -> u32
    ensures number { result ≡ (lax_track_playback_duration w.now out.old).number }
    ensures place { out.new ≡ (lax_track_playback_duration w.now out.old).left }
{
    capi::lax_track_playback_duration(w, out)
}

#[unsafe(no_mangle)]
pub extern "C" fn lax_track_progress(w: &[u32; 518], out: &mut f32) -> u32
    ensures number { result ≡ (lax_track_progress w.now out.old).number }
    ensures place { out.new ≡ (lax_track_progress w.now out.old).left }
{
    capi::lax_track_progress(w, out)
}

#[unsafe(no_mangle)]
pub extern "C" fn lax_track_is_complete(w: &[u32; 518], out: &mut u32) -> u32
    ensures number { result ≡ (lax_track_is_complete w.now out.old).number }
    ensures place { out.new ≡ (lax_track_is_complete w.now out.old).left }
{
    capi::lax_track_is_complete(w, out)
}

#[unsafe(no_mangle)]
pub extern "C" fn lax_track_reset(w: &mut [u32; 518]) -> u32
    ensures number { result ≡ (lax_track_reset w.old).number }
    ensures words { w.new ≡ (lax_track_reset w.old).left }
{
    capi::lax_track_reset(w)
}

#[unsafe(no_mangle)]
pub extern "C" fn lax_track_seek_to(w: &mut [u32; 518], p: f32) -> u32
    ensures number { result ≡ (lax_track_seek_to w.old p).number }
    ensures words { w.new ≡ (lax_track_seek_to w.old p).left }
{
    capi::lax_track_seek_to(w, p)
}

// running: 1 where the track is not complete, and has two frames or more.
#[unsafe(no_mangle)]
pub extern "C" fn lax_track_update(w: &mut [u32; 518], step: f32, out: &mut u32) -> u32
    ensures number { result ≡ (lax_track_update w.old step out.old).number }
    ensures words { w.new ≡ (lax_track_update w.old step out.old).left.words }
    ensures place { out.new ≡ (lax_track_update w.old step out.old).left.running }
{
    capi::lax_track_update(w, step, out)
}

#[unsafe(no_mangle)]
pub extern "C" fn lax_track_push(w: &mut [u32; 518], time: f32, value: f32) -> u32
    ensures number { result ≡ (lax_track_push w.old (plain_row time value)).number }
    ensures words { w.new ≡ (lax_track_push w.old (plain_row time value)).left }
{
    capi::lax_track_push(w, time, value)
}

#[unsafe(no_mangle)]
pub extern "C" fn lax_track_push_eased(
    w: &mut [u32; 518],
    time: f32,
    value: f32,
    e: &[u32; 6],
) -> u32
    ensures number { result ≡ (lax_track_push w.old (eased_row time value e.now)).number }
    ensures words { w.new ≡ (lax_track_push w.old (eased_row time value e.now)).left }
{
    capi::lax_track_push_eased(w, time, value, e)
}

#[unsafe(no_mangle)]
pub extern "C" fn lax_track_push_frame(w: &mut [u32; 518], k: &[u32; 8]) -> u32
    ensures number { result ≡ (lax_track_push w.old k.now).number }
    ensures words { w.new ≡ (lax_track_push w.old k.now).left }
{
    capi::lax_track_push_frame(w, k)
}

// The value at each time goes into the front of out. filled: how many were written, and how many of them
// are not settled.
#[unsafe(no_mangle)]
pub extern "C" fn lax_track_values_at(
    w: &[u32; 518],
    times: &[f32],
    out: &mut [f32],
    filled: &mut [usize; 2],
) -> u32
    ensures number { result ≡ (lax_track_values_at w.now times.now out.old filled.old).number }
    ensures output { out.new ≡ (lax_track_values_at w.now times.now out.old filled.old).left.out }
    ensures places { filled.new ≡ (lax_track_values_at w.now times.now out.old filled.old).left.filled }
{
    capi::lax_track_values_at(w, times, out, filled)
}
