// The ramp alone, by steps of a column each.
use drawing::columns::{COLUMNS, Column, Table, note};
use drawing::course::Course;
use drawing::frame::frame_of;
use drawing::picture::{Shown, print_ramp};
use std::rt::HostRuntime;
use tween::Tween;

// All passes of a few, the first three of others.
fn shown_of(t: Tween) -> Shown {
    let of = t.looping.pass_limit();
    let passes = match of {
        Some(all) if all <= 8 => all,
        _ => 3,
    };
    Shown { passes, of }
}

// How long a pass takes; with a time scale of 0 it has no end, and its start is shown.
fn pass_time(t: Tween) -> f32 {
    if t.time_scale > 0.0 {
        return t.duration / t.time_scale;
    }
    t.duration
}

// The steps are within an update's limit.
fn step_of(t: Tween, passes: u32) -> f32 {
    let lasts = t.delay + std::num::nearest_u32_to_f32(passes) * pass_time(t);
    math::clamp(lasts / 840.0, 0.0, 16777216.0)
}

// A step for each column, so that the last pass is at its end. `note` is called at the start and behind each step.
fn walk<F: FnMut(&Course)>(t: Tween, step: f32, mut note: F) -> Course
    requires { (state : F) (c : _) → F.pre state c }
{
    let mut c = Course::begin(t);
    note(&c);
    for _ in 0..COLUMNS {
        c.step(step);
        if c.refused.is_some() {
            return c;
        }
        note(&c);
    }
    c
}

// Draws a ramp with no log. Not inlined, as `draw_parts`: a call that draws nothing then has no room for a table.
#[inline(never)]
pub fn draw_alone(rt: &HostRuntime, t: Tween) {
    let shown = shown_of(t);
    let step = step_of(t, shown.passes);
    let mut seen = walk(t, step, |_| {});
    // the last step only makes the end sure
    seen.time = seen.before;
    let frame = frame_of(&seen);
    let mut columns = [Column::empty(); COLUMNS];
    let c = walk(t, step, |c| note(&mut columns, &frame, c));
    let table = Table {
        frame: &frame,
        columns: &columns,
    };
    print_ramp(rt, t, &table, &c, shown);
}
