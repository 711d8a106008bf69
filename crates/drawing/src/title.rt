// The ramp in short.
use crate::page::Paper;
use tools::{STDOUT_FILENO, say_easing, say_float, say_mode};
use tween::Tween;
use words::LaxTween;

fn number(rt: &impl Paper, x: f32) {
    if rt.goes_on() {
        say_float(STDOUT_FILENO, x);
    }
}

// The duration, the delay and the time scale.
fn say_times(rt: &impl Paper, t: &LaxTween) {
    number(rt, t.duration);
    let _ = print!(rt; " s");
    if t.delay > 0.0 {
        let _ = print!(rt; " after a delay of ");
        number(rt, t.delay);
        let _ = print!(rt; " s");
    }
    if t.time_scale != 1.0 {
        let _ = print!(rt; ", scale ");
        number(rt, t.time_scale);
    }
}

// The line above the picture.
pub fn title(rt: &impl Paper, t: Tween) {
    let w = words::tween_words(t);
    let _ = print!(rt; "<text class=\"title\" x=\"80\" y=\"22\">");
    number(rt, w.start);
    let _ = print!(rt; " to ");
    number(rt, w.end);
    let _ = print!(rt; " in ");
    say_times(rt, &w);
    let _ = print!(rt; ", ");
    if rt.goes_on() {
        say_mode(STDOUT_FILENO, t.looping);
    }
    let _ = print!(rt; ", ");
    if rt.goes_on() {
        say_easing(STDOUT_FILENO, t.easing);
    }
    let _ = println!(rt; "</text>");
}
