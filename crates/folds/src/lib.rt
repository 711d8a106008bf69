// The folds of an update: what happens each time that elapsed comes to the duration.
#![tactic(auto)]

ghost use Rattle.std.specs.Prelude.{◌≡◌, ◌≤◌, ◌<◌};
ghost use Rattle.folds.specs.Folds.{completes, goes_on, fold_once, due, folds_of};

use loop_mode::{Loop, passes};

// What folding changes of a tween, and how many folds were made.
#[derive(Clone, Copy)]
pub struct Folding {
    pub elapsed: f32,
    pub loop_count: u32,
    pub ping_pong_reverse: bool,
    pub completed: bool,
    pub folds: u32,
}

// That a count is below 2^32 is asked where it goes up. As an invariant of Folding it would have to hold behind
// the last fold too.
fn complete(p: Folding, duration: f32, count: u32, reverse: bool) -> Folding
    requires { p.folds < 4294967295 }
    ensures { result ≡ completes duration count reverse p }
{
    Folding {
        elapsed: duration,
        loop_count: count,
        ping_pong_reverse: reverse,
        completed: true,
        folds: p.folds + 1,
    }
}

fn go_on(p: Folding, duration: f32, count: u32, reverse: bool) -> Folding
    requires { p.folds < 4294967295 }
    ensures { result ≡ goes_on duration count reverse p }
{
    Folding {
        elapsed: p.elapsed - duration,
        loop_count: count,
        ping_pong_reverse: reverse,
        completed: false,
        folds: p.folds + 1,
    }
}

// One fold. An update makes 4,096 at most, so that neither count comes near 2^32.
pub fn fold_once(looping: Loop, duration: f32, p: Folding) -> Folding
    requires { (p.loop_count < 4294967295) × (p.folds < 4294967295) }
    ensures { result ≡ fold_once looping duration p }
{
    let count = p.loop_count;
    let reverse = p.ping_pong_reverse;
    match looping {
        Loop::Once => complete(p, duration, count, reverse),
        Loop::Times(n) => {
            if passes(n) <= count + 1 {
                return complete(p, duration, count + 1, reverse);
            }
            go_on(p, duration, count + 1, reverse)
        }
        Loop::Forever => go_on(p, duration, count, reverse),
        Loop::PingPong => go_on(p, duration, count, !reverse),
        Loop::PingPongTimes(n) => {
            let m = passes(n);
            if m <= count + 1 {
                return complete(p, duration, m, m % 2 == 0);
            }
            go_on(p, duration, count + 1, !reverse)
        }
    }
}

pub fn is_due(duration: f32, p: Folding) -> bool
    ensures { result ≡ due duration p }
{
    !p.completed & (duration <= p.elapsed)
}

// Folds while one is due, 4,096 at most.
pub fn fold_all(looping: Loop, duration: f32, first: Folding) -> Folding
    requires { (first.loop_count ≤ 16777216) × (first.folds ≡ 0) }
    ensures { result ≡ folds_of 4096 (due duration first) looping duration first }
{
    let mut p = first;
    for turn in 0..4096u32 {
        if !is_due(duration, p) {
            return p;
        }
        p = fold_once(looping, duration, p);
    }
    p
}
