// Where a time and a value stand in the picture.
ghost use Rattle.std.specs.Prelude.{◌≤◌};

use crate::course::Course;
use chart::axis::{Axis, time_axis, value_axis};
use chart::numbers::whole_to;

// The edges of the field, in tenths of a pixel.
pub const LEFT: u64 = 800;

pub const RIGHT: u64 = 9200;

pub const HIGH: u64 = 880;

pub const LOW: u64 = 3700;

#[derive(Clone, Copy)]
pub struct Frame {
    pub time: Axis,
    pub value: Axis,
}

// What holds the whole of a course.
pub fn frame_of(c: &Course) -> Frame {
    Frame {
        time: time_axis(c.time),
        value: value_axis(f64::from(c.least), f64::from(c.greatest)),
    }
}

// The column of a time.
pub fn column_at(frame: &Frame, time: f64) -> usize
    ensures { result ≤ 840 }
{
    whole_to(time / frame.time.high * 840.0 + 0.5, 840) as usize
}

// In tenths of a pixel from the left.
pub fn across(axis: &Axis, x: f64) -> u64
    ensures { result ≤ 9200 }
{
    LEFT + whole_to(x / axis.high * 8400.0 + 0.5, 8400)
}

// In tenths of a pixel from above.
pub fn down(axis: &Axis, x: f64) -> u64
    ensures { result ≤ 3700 }
{
    HIGH + whole_to(
        (axis.high - x) / (axis.high - axis.low) * 2820.0 + 0.5,
        2820,
    )
}

// The height of a value, in tenths of a pixel from above.
pub fn height_at(frame: &Frame, value: f32) -> u64 {
    down(&frame.value, f64::from(value))
}

// About how wide a label is, in tenths of a pixel.
pub(crate) fn width(n: u64) -> u64
    ensures { result ≤ 2000 }
{
    let mut text = [0u8; 20];
    let digits = io::decimal(n, &mut text);
    (digits as u64) * 70 + 520
}
