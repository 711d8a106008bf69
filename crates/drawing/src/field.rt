// The field: its grid, its axes and their numbers.
use crate::frame::{Frame, HIGH, LEFT, LOW, RIGHT, across, down};
use chart::axis::Axis;
use chart::svg::{Point, Tenths};
use chart::ticks::Tick;

// Draws something at each tick of an axis, which has fewer than 20.
fn at_ticks<F: Fn(f64, Tick)>(axis: &Axis, draw: F)
    requires { F.IsAlwaysCallable draw }
{
    let step = axis.step;
    for i in 0..20u32 {
        let steps = axis.first + f64::from(i);
        let x = steps * step.size;
        if x <= axis.high + step.size / 1000.0 {
            draw(x, Tick { step, steps });
        }
    }
}

// The lines of the grid, as one path.
pub fn grid(rt: &impl Print, frame: &Frame) {
    let _ = print!(rt; "<path class=\"grid\" d=\"");
    at_ticks(&frame.time, |x, _| {
        let _ = print!(rt; "M{}V{}", Point(across(&frame.time, x), LOW), Tenths(HIGH));
    });
    at_ticks(&frame.value, |x, _| {
        let _ = print!(rt; "M{}H{}", Point(LEFT, down(&frame.value, x)), Tenths(RIGHT));
    });
    let _ = println!(rt; "\"/>");
}

// A number, in a class of texts.
fn number(rt: &impl Print, class: char, x: u64, y: u64, tick: Tick) {
    let _ = println!(rt;
        "<text class=\"{class}\" x=\"{}\" y=\"{}\">{tick}</text>",
        Tenths(x),
        Tenths(y)
    );
}

// The two axes with their numbers, below the field and to its left, and names.
pub fn axes(rt: &impl Print, frame: &Frame) {
    let _ = println!(rt; "<path class=\"axis\" d=\"M80,88V370H920\"/>");
    at_ticks(&frame.time, |x, tick| {
        number(rt, 't', across(&frame.time, x), LOW + 170, tick);
    });
    at_ticks(&frame.value, |x, tick| {
        number(rt, 'v', LEFT - 60, down(&frame.value, x) + 40, tick);
    });
    let _ = println!(rt; "<text class=\"t\" x=\"500\" y=\"409\">time in s</text>");
    let _ = println!(rt; "<text x=\"14\" y=\"70\">setpoint</text>");
}
