// The calls of an easing.
use crate::call::EasingCall;
use easing::Easing;
use rows::{Row, accepted, answer_row, easing_at, flag_row, float_at, put_easing, unknown, word};
use units::Progress;
use words::{LaxEasing, easing_of, easing_words};

fn eq(x: Easing, w: LaxEasing) -> Row {
    match easing_of(w) {
        Some(y) => answer_row(x.eq(y)),
        None => unknown(),
    }
}

pub fn answer(call: EasingCall, words: [u32; 1024]) -> Row {
    let Some(e) = easing_of(easing_at(words, 0)) else {
        return unknown();
    };
    match call {
        EasingCall::Apply => answer_row(e.apply(Progress(float_at(words, 6)))),
        EasingCall::Eq => eq(e, easing_at(words, 6)),
        EasingCall::IsSupplied => flag_row(e.is_supplied()),
    }
}

// The easing at a place among those with a name.
pub fn named(words: [u32; 1024]) -> Row {
    match Easing::all_named().get(word(words, 0) as usize) {
        Some(e) => put_easing(accepted(), easing_words(*e)),
        None => unknown(),
    }
}
