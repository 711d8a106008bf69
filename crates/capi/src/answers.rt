// What a call writes into the places that it is lent, and the number that it answers. A refused call
// writes none of them.
ghost use Rattle.std.specs.Prelude.{◌≡◌};
ghost use Rattle.bezier.specs.Bezier.{plain_of};
ghost use Rattle.steps.specs.Course.{outcome_number};
ghost use Rattle.capi.specs.Answers.{answering, accepted, found_words, found_in, flag_in, given_in};
ghost use Rattle.capi.specs.Tweens.{snapshot_in, changed_in};

use bezier::Found;
use refusal::{Refusal, Rejected};
use tween::{Tween, TweenSnapshot};
pub use words::UNKNOWN_WORD;
use words::{flag_word, state_word, store_tween};

// The value's bits, whether it is settled, and how many the search evaluated.
pub fn put_found(a: Result<Found, Refusal>, out: &mut [u32; 4]) -> u32
    ensures { answering result out.new ≡ found_in out.old a }
{
    match a {
        Ok(found) => {
            *out = [
                math::bits(found.value),
                flag_word(found.settled),
                found.xs,
                found.derivatives as u32,
            ];
            0
        }
        Err(refusal) => refusal.number(),
    }
}

pub fn put<T: Copy>(a: Result<T, Refusal>, out: &mut T) -> u32
    ensures { answering result out.new ≡ given_in out.old a }
{
    match a {
        Ok(value) => {
            *out = value;
            0
        }
        Err(refusal) => refusal.number(),
    }
}

// A value with no search.
pub fn put_plain(value: f32, out: &mut [u32; 4]) -> u32
    ensures { answering result out.new ≡ accepted (found_words (plain_of value)) }
{
    *out = [math::bits(value), 1, 0, 0];
    0
}

pub fn put_flag(b: bool, out: &mut u32) -> u32
    ensures { answering result out.new ≡ flag_in b }
{
    *out = flag_word(b);
    0
}

pub fn put_snapshot(a: Result<TweenSnapshot, Refusal>, out: &mut [u32; 5]) -> u32
    ensures { answering result out.new ≡ snapshot_in out.old a }
{
    match a {
        Ok(now) => {
            let state = now.state;
            *out = [
                math::bits(now.elapsed),
                math::bits(now.delay_elapsed),
                state_word(state),
                now.loop_count,
                flag_word(now.ping_pong_reverse),
            ];
            0
        }
        Err(refusal) => refusal.number(),
    }
}

pub fn put_tween(a: Result<Tween, Rejected<Tween>>, w: &mut [u32; 18]) -> u32
    ensures { answering result w.new ≡ changed_in w.old a }
{
    match a {
        Ok(u) => {
            store_tween(w, u);
            0
        }
        Err(rejected) => rejected.refusal.number(),
    }
}

pub fn outcome_number(outcome: Result<(), Refusal>) -> u32
    ensures { result ≡ outcome_number outcome }
{
    match outcome {
        Ok(()) => 0,
        Err(refusal) => refusal.number(),
    }
}
