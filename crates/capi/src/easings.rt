// The calls of an easing, lent as six words. Each matches on `easing_of` for itself: a closure would have
// to capture what the call writes.
ghost use Rattle.std.specs.Prelude.{◌≡◌};
ghost use Rattle.capi.specs.Answers.{answering};
ghost use Rattle.capi.specs.Easings.{lax_easing_apply, lax_easing_eq, lax_easing_is_supplied, lax_easing_named};

use crate::answers::{UNKNOWN_WORD, put_flag, put_found, put_plain};
use easing::Easing;
use easing_words::{draw, search};
use units::Progress;
use words::{easing_in, easing_of, easing_words};

// By way of the library's easing.
fn apply_in(e: &[u32; 6], t: f32, out: &mut [u32; 4]) -> u32
    ensures { answering result out.new ≡ lax_easing_apply e.now t out.old }
{
    match easing_of(easing_in(e)) {
        Some(easing) => put_found(easing.apply(Progress(t)), out),
        None => UNKNOWN_WORD,
    }
}

pub fn lax_easing_apply(e: &[u32; 6], t: f32, out: &mut [u32; 4]) -> u32
    ensures { answering result out.new ≡ lax_easing_apply e.now t out.old }
{
    if math::is_nan(t) {
        return apply_in(e, t, out);
    }
    let u = math::clamp01(t);
    if let Some(v) = draw(e[0], u) {
        return put_plain(v, out);
    }
    if let Some(found) = search(e[0], e[1], e[2], e[3], e[4], u) {
        return put_found(Ok(found), out);
    }
    apply_in(e, t, out)
}

pub fn lax_easing_eq(x: &[u32; 6], y: &[u32; 6], out: &mut u32) -> u32
    ensures { answering result out.new ≡ lax_easing_eq x.now y.now out.old }
{
    let Some(left) = easing_of(easing_in(x)) else {
        return UNKNOWN_WORD;
    };
    let Some(right) = easing_of(easing_in(y)) else {
        return UNKNOWN_WORD;
    };
    match left.eq(right) {
        Ok(b) => put_flag(b, out),
        Err(refusal) => refusal.number(),
    }
}

pub fn lax_easing_is_supplied(e: &[u32; 6], out: &mut u32) -> u32
    ensures { answering result out.new ≡ lax_easing_is_supplied e.now out.old }
{
    match easing_of(easing_in(e)) {
        Some(easing) => put_flag(easing.is_supplied(), out),
        None => UNKNOWN_WORD,
    }
}

// The easing at a place of all_named, from 0 to 37, with the source's parameters.
pub fn lax_easing_named(place: u32, out: &mut [u32; 6]) -> u32
    ensures { answering result out.new ≡ lax_easing_named place out.old }
{
    if place < 38 {
        let named = Easing::all_named();
        let e = easing_words(named[place as usize]);
        *out = [
            e.kind,
            math::bits(e.a),
            math::bits(e.b),
            math::bits(e.c),
            math::bits(e.d),
            e.count,
        ];
        return 0;
    }
    UNKNOWN_WORD
}
