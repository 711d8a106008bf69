// W3C's steps: CSS Easing Functions Level 1, "Step easing functions".
ghost use Rattle.std.specs.Prelude.{◌≡◌, ◌≤◌};
ghost use Rattle.math.specs.Range.{Within};
ghost use Rattle.curves.specs.Jumps.{least_of, raised_of, lowered_of, jumps_of, jump_of};

// Where rises lie beside those within: one at 0, one at 1, one at each, or none.
#[derive(Clone, Copy)]
pub enum Position {
    JumpStart,
    JumpEnd,
    JumpBoth,
    JumpNone,
}

impl Position {
    // The fewest steps. One step of JumpNone would have no rise.
    pub fn least(self) -> u32
        ensures { result ≡ least_of self }
    {
        match self {
            Position::JumpStart => 1,
            Position::JumpEnd => 1,
            Position::JumpBoth => 1,
            Position::JumpNone => 2,
        }
    }

    fn raised(self, step: u32) -> u32
        requires { step ≤ 65536 }
        ensures { result ≡ raised_of self step }
    {
        match self {
            Position::JumpStart => step + 1,
            Position::JumpEnd => step,
            Position::JumpBoth => step + 1,
            Position::JumpNone => step,
        }
    }

    // How many rises n steps have.
    fn jumps(self, n: u32) -> u32
        requires self_bound { least_of self ≤ n }
        requires n_bound { n ≤ 65536 }
        ensures { result ≡ jumps_of self n }
    {
        match self {
            Position::JumpStart => n,
            Position::JumpEnd => n,
            Position::JumpBoth => n + 1,
            Position::JumpNone => n - 1,
        }
    }
}

fn lowered(before: bool, whole: bool, step: u32) -> u32
    ensures { result ≡ lowered_of before whole step }
{
    if before & whole {
        step.saturating_sub(1)
    } else {
        step
    }
}

// n steps at t, from 0 to 1. before is W3C's flag: at a rise it gives the step below it.
pub fn jump(position: Position, before: bool, t: f32, n: u32) -> f32
    requires within { Within t }
    requires position_bound { least_of position ≤ n }
    requires n_bound { n ≤ 65536 }
    ensures { result ≡ jump_of position before t n }
{
    let product = t * std::num::nearest_u32_to_f32(n);
    let floor = math::whole_part(product);
    let whole = product <= std::num::nearest_u32_to_f32(floor);
    let jumps = position.jumps(n);
    let step = lowered(before, whole, position.raised(floor)).min(jumps);
    std::num::nearest_u32_to_f32(step) / std::num::nearest_u32_to_f32(jumps)
}
