// An update with one fold at most.
ghost use Rattle.std.specs.Prelude.{◌≡◌, true, false, ◌≤◌};
ghost use Rattle.std.specs.Float.Ieee.{lt};
ghost use Rattle.math.specs.Rounded.{top_f};
ghost use Rattle.words.specs.Lent.{word_at};
ghost use Rattle.words.specs.Modes.{loop_from};
ghost use Rattle.words.specs.Tracks.{loop_in};
ghost use Rattle.tween_words.specs.Fitting.{fits_of};
ghost use Rattle.tween_words.specs.Stepping.{turn_of, SlidesTo, StepsTo};

use crate::fitting::fits;
use loop_mode::passes;
use words::flag_word;

// What a fold makes of loop_count and ping_pong_reverse, and whether it is the last.
#[derive(Clone, Copy)]
pub struct Turn {
    pub count: u32,
    pub flag: u32,
    pub done: bool,
}

// For the six of `turned`, which as literals would take some 30 lines.
impl Turn {
    fn new(count: u32, flag: u32, done: bool) -> Turn
        ensures { result ≡ record { count = count; flag = flag; done = done } }
    {
        Turn { count, flag, done }
    }
}

// Which words change, and to what pattern.
#[derive(Clone, Copy)]
pub enum Slid {
    // elapsed.
    To(u32),
    // delay_elapsed.
    Waits(u32),
    // None.
    Stays(bool),
    // elapsed, loop_count and ping_pong_reverse, after a fold.
    Folded { elapsed: u32, count: u32, flag: u32 },
    // elapsed, which comes to the duration, state, loop_count and ping_pong_reverse.
    Ended { count: u32, flag: u32 },
}

#[derive(Clone, Copy)]
pub struct Stepped {
    pub folds: u32,
    pub running: bool,
}

// mode and flag are the words that C lends: no `Loop` is built on the common way.
fn turned(mode: u32, limit: u32, count: u32, flag: u32) -> Turn
    requires { (count ≤ 16777216) × (flag ≤ 1) }
    ensures { result ≡ turn_of (loop_in (loop_from (record { mode = mode; passes = limit }))) count flag }
{
    if mode == 2 {
        return Turn::new(count, flag, false);
    }
    if mode == 3 {
        return Turn::new(count, flag_word(flag == 0), false);
    }
    let n = passes(limit);
    let next = count + 1;
    if mode == 1 {
        return Turn::new(next, flag, n <= next);
    }
    if mode != 4 {
        return Turn::new(count, flag, true);
    }
    if n <= next {
        return Turn::new(n, flag_word(n % 2 == 0), true);
    }
    Turn::new(next, flag_word(flag == 0), false)
}

// The patterns of a tween that fits are no NaN's. Three functions ask that it fits; a type for it would be built in
// two places, and taken apart in each.
fn run(w: &[u32; 18], secs: f32) -> Option<Slid>
    requires { (fits_of w.now ≡ true) × (word_at w.now 15 ≡ 1) × (lt top_f secs ≡ false) }
    ensures { SlidesTo w.now secs result }
{
    let duration = f32::from_bits(w[2]);
    let elapsed = f32::from_bits(w[13]);
    let add = math::max_zero(secs) * f32::from_bits(w[10]);
    let e = elapsed + add;
    if math::is_lost(elapsed, add, e) {
        return None;
    }
    if duration == 0.0 {
        return None;
    }
    if e < duration {
        return Some(Slid::To(f32::to_bits(e)));
    }
    if duration <= e {
        let t = turned(w[11], w[12], w[16], w[17]);
        if t.done {
            return Some(Slid::Ended {
                count: t.count,
                flag: t.flag,
            });
        }
        let over = e - duration;
        if over < duration {
            return Some(Slid::Folded {
                elapsed: f32::to_bits(over),
                count: t.count,
                flag: t.flag,
            });
        }
    }
    None
}

fn wait(w: &[u32; 18], secs: f32) -> Option<Slid>
    requires { (fits_of w.now ≡ true) × (word_at w.now 15 ≡ 0) × (lt top_f secs ≡ false) }
    ensures { SlidesTo w.now secs result }
{
    let waited = f32::from_bits(w[14]);
    let step = math::max_zero(secs);
    let sum = waited + step;
    if math::is_lost(waited, step, sum) {
        return None;
    }
    if sum < f32::from_bits(w[9]) {
        return Some(Slid::Waits(f32::to_bits(sum)));
    }
    None
}

fn slide(w: &[u32; 18], secs: f32) -> Option<Slid>
    ensures { SlidesTo w.now secs result }
{
    if !fits(w) {
        return None;
    }
    if secs > 16777216.0 {
        return None;
    }
    let state = w[15];
    match state {
        0 => wait(w, secs),
        1 => run(w, secs),
        2 => Some(Slid::Stays(true)),
        3 => Some(Slid::Stays(false)),
        _ => None,
    }
}

fn ran(folds: u32, running: bool) -> Option<Stepped>
    ensures { result ≡ Some (record { folds = folds; running = running }) }
{
    Some(Stepped { folds, running })
}

// None: no word is changed.
pub fn step_on(w: &mut [u32; 18], secs: f32) -> Option<Stepped>
    ensures { StepsTo w.old secs w.new result }
{
    let slid = slide(w, secs)?;
    match slid {
        Slid::To(e) => {
            w[13] = e;
            ran(0, true)
        }
        Slid::Waits(sum) => {
            w[14] = sum;
            ran(0, true)
        }
        Slid::Stays(running) => ran(0, running),
        Slid::Folded {
            elapsed,
            count,
            flag,
        } => {
            w[13] = elapsed;
            w[16] = count;
            w[17] = flag;
            ran(1, true)
        }
        Slid::Ended { count, flag } => {
            w[13] = w[2];
            w[15] = 3;
            w[16] = count;
            w[17] = flag;
            ran(1, false)
        }
    }
}
