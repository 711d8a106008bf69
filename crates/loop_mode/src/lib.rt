// What happens at the end of a pass.
#![tactic(auto)]

ghost use Rattle.std.specs.Prelude.{◌≡◌};
ghost use Rattle.loop_mode.specs.Passes.{passes_of, limit_of, within_of};

#[derive(Clone, Copy)]
pub enum Loop {
    Once,
    // 0 counts as 1, here and in PingPongTimes.
    Times(u32),
    Forever,
    // Forward, then backward, without an end.
    PingPong,
    // Single passes: PingPongTimes(2) goes forward, then backward.
    PingPongTimes(u32),
}

// The largest pass number that a mode may hold.
const MOST_PASSES: u32 = 65535;

// The passes that a pass number asks for: 0 counts as 1.
pub fn passes(n: u32) -> u32
    ensures { result ≡ passes_of n }
{
    n.max(1)
}

impl Loop {
    // How many passes there are before the end.
    #[tactic(auto, unfolding(crate::specs::Passes::limit_of))]
    pub fn pass_limit(self) -> Option<u32>
        ensures { result ≡ limit_of self }
    {
        match self {
            Loop::Once => Some(1),
            Loop::Times(n) | Loop::PingPongTimes(n) => Some(passes(n)),
            Loop::Forever | Loop::PingPong => None,
        }
    }

    // Whether a pass number is within its limit.
    #[tactic(auto, unfolding(crate::specs::Passes::within_of))]
    pub fn is_within_limits(self) -> bool
        ensures { result ≡ within_of self }
    {
        match self {
            Loop::Times(n) | Loop::PingPongTimes(n) => n <= MOST_PASSES,
            Loop::Once | Loop::Forever | Loop::PingPong => true,
        }
    }
}
