// The calls of a tween, lent as 18 words.
ghost use Rattle.std.specs.Prelude.{◌≡◌};
ghost use Rattle.capi.specs.Answers.{answering, accepted};
ghost use Rattle.capi.specs.Tweens.{lax_tween_new, lax_tween_value, lax_tween_progress, lax_tween_eased_progress, lax_tween_snapshot, lax_tween_playback_duration, lax_tween_reset, lax_tween_seek, lax_tween_reverse, lax_tween_pause, lax_tween_resume, lax_tween_update, lax_tween_run};

#[unsafe(no_mangle)]
pub extern "C" fn lax_tween_new(w: &mut [u32; 18], start: f32, end: f32) -> u32
    ensures { answering result w.new ≡ accepted (lax_tween_new start end) }
{
    capi::lax_tween_new(w, start, end)
}

#[unsafe(no_mangle)]
pub extern "C" fn lax_tween_value(w: &[u32; 18], out: &mut [u32; 4]) -> u32
    ensures { answering result out.new ≡ lax_tween_value w.now out.old }
{
    capi::lax_tween_value(w, out)
}

#[unsafe(no_mangle)]
pub extern "C" fn lax_tween_progress(w: &[u32; 18], out: &mut f32) -> u32
    ensures { answering result out.new ≡ lax_tween_progress w.now out.old }
{
    capi::lax_tween_progress(w, out)
}

#[unsafe(no_mangle)]
pub extern "C" fn lax_tween_eased_progress(w: &[u32; 18], out: &mut [u32; 4]) -> u32
    ensures { answering result out.new ≡ lax_tween_eased_progress w.now out.old }
{
    capi::lax_tween_eased_progress(w, out)
}

#[unsafe(no_mangle)]
pub extern "C" fn lax_tween_snapshot(w: &[u32; 18], out: &mut [u32; 5]) -> u32
    ensures { answering result out.new ≡ lax_tween_snapshot w.now out.old }
{
    capi::lax_tween_snapshot(w, out)
}

#[unsafe(no_mangle)]
pub extern "C" fn lax_tween_playback_duration(w: &[u32; 18], out: &mut f32) -> u32
    ensures { answering result out.new ≡ lax_tween_playback_duration w.now out.old }
{
    capi::lax_tween_playback_duration(w, out)
}

#[unsafe(no_mangle)]
pub extern "C" fn lax_tween_reset(w: &mut [u32; 18]) -> u32
    ensures { answering result w.new ≡ lax_tween_reset w.old }
{
    capi::lax_tween_reset(w)
}

#[unsafe(no_mangle)]
pub extern "C" fn lax_tween_seek(w: &mut [u32; 18], p: f32) -> u32
    ensures { answering result w.new ≡ lax_tween_seek w.old p }
{
    capi::lax_tween_seek(w, p)
}

#[unsafe(no_mangle)]
pub extern "C" fn lax_tween_reverse(w: &mut [u32; 18]) -> u32
    ensures { answering result w.new ≡ lax_tween_reverse w.old }
{
    capi::lax_tween_reverse(w)
}

#[unsafe(no_mangle)]
pub extern "C" fn lax_tween_pause(w: &mut [u32; 18]) -> u32
    ensures { answering result w.new ≡ lax_tween_pause w.old }
{
    capi::lax_tween_pause(w)
}

#[unsafe(no_mangle)]
pub extern "C" fn lax_tween_resume(w: &mut [u32; 18]) -> u32
    ensures { answering result w.new ≡ lax_tween_resume w.old }
{
    capi::lax_tween_resume(w)
}

// out: the folds, and 1 where the tween is not completed.
#[unsafe(no_mangle)]
pub extern "C" fn lax_tween_update(w: &mut [u32; 18], step: f32, out: &mut [u32; 2]) -> u32
    ensures { answering result (record { words = w.new; out = out.new }) ≡ lax_tween_update w.old step out.old }
{
    capi::lax_tween_update(w, step, out)
}

// The value after each step and the folds of each go into the fronts of values and folds. out: how many
// steps were taken, and how many of the values are not settled.
#[unsafe(no_mangle)]
pub extern "C" fn lax_tween_run(
    w: &mut [u32; 18],
    steps: &[f32],
    values: &mut [f32],
    folds: &mut [u32],
    out: &mut [usize; 2],
) -> u32
    ensures { answering result (record { words = w.new; values = values.new; folds = folds.new; out = out.new }) ≡ lax_tween_run w.old steps.now values.old folds.old out.old }
{
    capi::lax_tween_run(w, steps, values, folds, out)
}
