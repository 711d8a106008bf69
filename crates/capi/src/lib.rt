// The C interface. Every record is lent as words, and changed in place; a call answers a number: 0, the
// refusal's number, or 100 where a word is no kind, no mode or no state. What else it answers goes into
// places that it is lent.
#![tactic(auto)]

mod answers;
mod easings;
mod logs;
mod replays;
mod tracks;
mod tweens;

pub use easings::{lax_easing_apply, lax_easing_eq, lax_easing_is_supplied, lax_easing_named};
pub use logs::{lax_log_head, lax_log_record};
pub use replays::{lax_log_replay, lax_log_replay_on};
pub use tracks::{
    lax_track_active_time, lax_track_duration, lax_track_is_complete, lax_track_looping,
    lax_track_new, lax_track_playback_duration, lax_track_progress, lax_track_push,
    lax_track_push_eased, lax_track_push_frame, lax_track_reset, lax_track_seek_to,
    lax_track_update, lax_track_value, lax_track_value_at, lax_track_values_at,
};
pub use tweens::{
    lax_tween_eased_progress, lax_tween_new, lax_tween_pause, lax_tween_playback_duration,
    lax_tween_progress, lax_tween_reset, lax_tween_resume, lax_tween_reverse, lax_tween_run,
    lax_tween_seek, lax_tween_snapshot, lax_tween_update, lax_tween_value,
};
