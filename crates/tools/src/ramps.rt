// The ramp that an argument names.
use crate::explain::say_fault;
use crate::files::read_text;
use crate::saying::say_text;
use crate::shown::InRamp;
use easing::Easing;
use loop_mode::Loop;
use ramp::parse_ramp;
use std::rt::HostRuntime;
use tween::Tween;

// The ramp of a file of at most 65,535 bytes. None where there is none, and then standard error has a line
// that says why. Not inlined: its buffer is off the stack when the ramp is read.
#[inline(never)]
pub fn read_ramp(rt: &HostRuntime, argument: usize) -> Option<Tween> {
    let mut buffer = io::large_buffer();
    let text = read_text(rt, argument, &mut buffer).ok()?;
    match parse_ramp(text) {
        Ok(tween) => Some(tween),
        Err(fault) => {
            say_fault(rt, argument, text, fault);
            None
        }
    }
}

// An easing as it stands in a ramp: its name and its parameters.
pub fn say_easing(fd: i32, easing: Easing) {
    say_text(fd, InRamp(easing));
}

// A mode as it stands in a ramp: its name, and its passes.
pub fn say_mode(fd: i32, mode: Loop) {
    say_text(fd, InRamp(mode));
}

// A ramp as it is understood, a setting to a line.
pub fn say_ramp(fd: i32, t: Tween) {
    say_text(fd, format_args!("ramp start {}\n", InRamp(t.start)));
    say_text(fd, format_args!("ramp end {}\n", InRamp(t.end)));
    say_text(fd, format_args!("ramp duration {}\n", InRamp(t.duration)));
    say_text(fd, format_args!("ramp delay {}\n", InRamp(t.delay)));
    say_text(fd, format_args!("ramp scale {}\n", InRamp(t.time_scale)));
    say_text(fd, format_args!("ramp mode {}\n", InRamp(t.looping)));
    say_text(fd, format_args!("ramp easing {}\n", InRamp(t.easing)));
}
