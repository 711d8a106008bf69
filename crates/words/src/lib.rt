// Records as words of 32 bits, for the C interface. Reading answers None where a word is no kind, no mode or no state.
#![tactic(auto)]

mod fault;
mod kinds;
mod lent;
mod modes;
mod sampling;
mod tracks;
mod tweens;

pub use fault::Fault;
pub use kinds::{LaxEasing, UNKNOWN_WORD, easing_of, easing_words, is_kind};
pub use lent::{easing_in, frame_in, loop_in, store_tween, tween_in};
pub use modes::{LaxLoop, flag_word, loop_of, state_word};
pub use sampling::{eased, easing_fits, is_plain};
pub use tracks::{
    LaxKeyframe, LaxTrack, frame_of, is_known, mode_of, places, read_frame, track_of, track_words,
};
pub use tweens::{LaxTween, tween_of, tween_words};
