// The words of the fixed list: records and lists read from them, and the library's answers written
// as them, in rows by value. All of these are inner steps of the program `replay`, and no calls.
#![tactic(auto)]

mod answers;
mod entries;
mod given;
mod handed;
mod lists;

pub use answers::{Answer, accepted, answer_row, flag_row, kept, refused, unknown};
pub use entries::{Row, float_at, is_answer, word};
pub use given::{easing_at, loop_at, track_in, tween_in};
pub use handed::{put_easing, put_track, put_tween, tween_row};
pub use lists::{AsWord, count_word, floats_at, length_at, mark_words, marks, put_list};
