// A tween, and what moves in it. Times are in seconds.
ghost use Rattle.std.specs.Prelude.{◌≡◌};
ghost use Rattle.tween.specs.Parts.{new_of, with_ends};

use easing::Easing;
use loop_mode::Loop;

#[derive(Clone, Copy)]
pub enum TweenState {
    // Within the delay.
    Idle,
    Running,
    Paused,
    Completed,
}

#[derive(Clone, Copy)]
pub struct Tween {
    pub start: f32,
    pub end: f32,
    // Of one pass.
    pub duration: f32,
    pub easing: Easing,
    pub delay: f32,
    // 2 is double speed. The delay is not scaled.
    pub time_scale: f32,
    pub looping: Loop,
    // In the pass under way, scaled.
    pub elapsed: f32,
    pub delay_elapsed: f32,
    pub state: TweenState,
    // Passes made; counted in Times and PingPongTimes alone.
    pub loop_count: u32,
    // Under way from end to start.
    pub ping_pong_reverse: bool,
}

// What moves in a tween.
#[derive(Clone, Copy)]
pub struct TweenSnapshot {
    pub elapsed: f32,
    pub delay_elapsed: f32,
    pub loop_count: u32,
    pub ping_pong_reverse: bool,
    pub state: TweenState,
}

impl Tween {
    // One second, Linear, no delay, scale 1, Once; running from its start.
    pub fn new(start: f32, end: f32) -> Tween
        ensures { result ≡ new_of start end }
    {
        Tween {
            start,
            end,
            duration: 1.0,
            easing: Easing::Linear,
            delay: 0.0,
            time_scale: 1.0,
            looping: Loop::Once,
            elapsed: 0.0,
            delay_elapsed: 0.0,
            state: TweenState::Running,
            loop_count: 0,
            ping_pong_reverse: false,
        }
    }
}

// The tween with other ends, moved to a snapshot.
pub fn with_ends(t: Tween, start: f32, end: f32, snapshot: TweenSnapshot) -> Tween
    ensures { result ≡ with_ends start end snapshot t }
{
    Tween {
        start,
        end,
        elapsed: snapshot.elapsed,
        delay_elapsed: snapshot.delay_elapsed,
        state: snapshot.state,
        loop_count: snapshot.loop_count,
        ping_pong_reverse: snapshot.ping_pong_reverse,
        ..t
    }
}
