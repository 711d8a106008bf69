// A ramp as a picture, in SVG on standard output.
//
//     plot RAMP LOG     the setpoint over time, as the replay of the log gives it
//     plot RAMP         the ramp alone
#![tactic(auto)]

mod alone;
mod log;
mod refusing;

use refusal::Refusal;
use tween::Tween;

// Whether the words are there to work on.
fn is_called(rt: &HostRuntime) -> bool {
    tools::has_words(
        rt,
        b"plot",
        b"usage: plot RAMP [LOG]\n",
        b"\n\
        Draws the setpoint over time, as an SVG on standard output; with no log the ramp alone.\n\
        \n\
        RAMP  a ramp as text: a name and its value to a line\n\
        LOG   an event log, which is read twice: a file and no pipe\n\
        \n\
        The status of bin/plot, and the last line:\n\
        0  </svg>: the picture is whole\n\
        2  end refused N: the ramp or the log is refused, by refusal N\n\
        3  end unreadable: a file can't be read or is no ramp, or the words are wrong\n\
        Where the picture can't be written the status is 3 too.\n\
        \n",
        2,
        3,
    )
}

// Draws the log that the second argument names, or the ramp alone.
fn draw(rt: &HostRuntime, t: Tween) {
    if !tools::has_argument(rt, 2) {
        alone::draw_alone(rt, t);
        return;
    }
    let Some(mut file) = tools::open_argument(rt, 2) else {
        tools::end_unreadable();
        return;
    };
    log::draw_log(rt, &mut file, t);
}

fn main(rt: HostRuntime) {
    if !is_called(&rt) {
        return;
    }
    let Some(t) = tools::read_ramp(&rt, 1) else {
        tools::end_unreadable();
        return;
    };
    if !tween::within(t) {
        refusing::refuse(&rt, 1, Refusal::RecordBreaksLimit);
        return;
    }
    draw(&rt, t);
}
