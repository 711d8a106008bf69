// An axis: where its ticks are.

// 10^n or 10^-n.
#[derive(Clone, Copy)]
pub enum Power {
    Zeros(u32),
    Places(u32),
}

// digit, 1, 2, 5 or 10, times a power of ten.
#[derive(Clone, Copy)]
pub struct Step {
    pub size: f64,
    pub digit: u8,
    pub power: Power,
}

// first is the number of steps at low.
#[derive(Clone, Copy)]
pub struct Axis {
    pub low: f64,
    pub high: f64,
    pub first: f64,
    pub step: Step,
}

// 1, changed until it is enough, and how often that was: 60 times at most.
fn changed<C: Fn(f64) -> f64, E: Fn(f64) -> bool>(change: C, is_enough: E) -> (f64, u32)
    requires change { C.IsAlwaysCallable change }
    requires is_enough { E.IsAlwaysCallable is_enough }
{
    let mut size = 1.0;
    for times in 0..60 {
        if is_enough(size) {
            return (size, times);
        }
        size = change(size);
    }
    (size, 60)
}

// The largest power of ten up to x.
fn power_of(x: f64) -> Step {
    let (size, power) = if x < 1.0 {
        let (size, n) = changed(|s| s / 10.0, |s| s <= x);
        (size, Power::Places(n))
    } else {
        let (size, n) = changed(|s| s * 10.0, |s| s * 10.0 > x);
        (size, Power::Zeros(n))
    };
    Step {
        size,
        digit: 1,
        power,
    }
}

impl Step {
    // A power of ten, so many times.
    fn times(self, digit: u8) -> Step {
        Step {
            size: self.size * f64::from(digit),
            digit,
            power: self.power,
        }
    }
}

// The least round step that is x or more.
fn round_step(x: f64) -> Step {
    let step = power_of(x);
    if x <= step.size * 1.000001 {
        return step;
    }
    if x <= step.size * 2.0 {
        return step.times(2);
    }
    if x <= step.size * 5.0 {
        return step.times(5);
    }
    step.times(10)
}

// From 0 to a time; to 1 where that is 0.
pub fn time_axis(time: f64) -> Axis {
    let high = if time <= 0.0 { 1.0 } else { time };
    Axis {
        low: 0.0,
        high,
        first: 0.0,
        step: round_step(high / 10.0),
    }
}

// From a tick to a tick.
fn ticks_around(low: f64, high: f64) -> Axis {
    let step = round_step((high - low) / 6.0);
    let first = (low / step.size).floor();
    Axis {
        low: first * step.size,
        high: (high / step.size).ceil() * step.size,
        first,
        step,
    }
}

// Around all values, and around one where they are equal.
pub fn value_axis(least: f64, greatest: f64) -> Axis {
    if least < greatest {
        return ticks_around(least, greatest);
    }
    if least == 0.0 {
        return ticks_around(-1.0, 1.0);
    }
    let room = least.abs() / 2.0;
    ticks_around(least - room, least + room)
}
