// A ramp of a pump, sampled to a table: the setpoint after each second, and the passes folded in it.
#![tactic(auto)]

use easing::Easing;
use loop_mode::Loop;
use std::rt::HostRuntime;
use tween::{Tween, TweenState};

// From 10 to 20 in 4 seconds and back, twice.
fn ramp() -> Tween {
    Tween {
        start: 10.0,
        end: 20.0,
        duration: 4.0,
        easing: Easing::EaseInOutCubic,
        delay: 0.0,
        time_scale: 1.0,
        looping: Loop::PingPongTimes(4),
        elapsed: 0.0,
        delay_elapsed: 0.0,
        state: TweenState::Running,
        loop_count: 0,
        ping_pong_reverse: false,
    }
}

fn print_table(rt: &HostRuntime) {
    let steps = [1.0f32; 16];
    let mut values = [0.0f32; 16];
    let mut folds = [0u32; 16];
    steps::run_steps(ramp(), &steps, &mut values, &mut folds);
    let _ = println!(rt; "   s  setpoint  folds");
    for (i, (value, folds)) in values.iter().zip(&folds).enumerate() {
        // to the nearest hundredth
        let hundredths = math::whole_part(*value * 100.0 + 0.5);
        let (whole, part) = (hundredths / 100, hundredths % 100);
        let _ = println!(rt; "{:>4}{whole:>7}.{part:02}{folds:>7}", i + 1);
    }
}

// What can't be written is left out.
fn main(rt: HostRuntime) {
    print_table(&rt);
}
