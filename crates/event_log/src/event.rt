// What is done to a tween, and a record of it.
ghost use Rattle.std.specs.Prelude.{◌≡◌};
ghost use Rattle.event_log.specs.Format.{kind_of, step_of, pattern_of, record_of};

#[derive(Clone, Copy)]
pub enum Event {
    // An update, by so many seconds.
    Step(f32),
    Pause,
    Resume,
    Reset,
}

impl Event {
    // The format's byte.
    fn kind(self) -> u8
        ensures { result ≡ kind_of self }
    {
        match self {
            Event::Step(_) => 1,
            Event::Pause => 2,
            Event::Resume => 3,
            Event::Reset => 4,
        }
    }

    // In seconds; 0 for what is no step.
    pub(crate) fn step(self) -> f32
        ensures { result ≡ step_of self }
    {
        match self {
            Event::Step(x) => x,
            Event::Pause | Event::Resume | Event::Reset => 0.0,
        }
    }
}

// The step's pattern, -0 as +0.
fn pattern(x: f32) -> u32
    ensures { result ≡ pattern_of x }
{
    if x > 0.0 {
        return f32::to_bits(x);
    }
    0
}

pub(crate) fn record(number: u16, event: Event) -> [u8; 8]
    ensures { result ≡ record_of number event }
{
    let [low, high] = number.to_le_bytes();
    let [a, b, c, d] = pattern(event.step()).to_le_bytes();
    [low, high, event.kind(), 0, a, b, c, d]
}
