// Whether a sum shows what was added.
ghost use Rattle.std.specs.Prelude.{◌≡◌};
ghost use Rattle.math.specs.Lost.{lost_by};

use crate::range::is_above;

// `sum` is the rounded sum of `old` and `add`: it stayed at `old`, or moved by something that is more
// than an eighth of `add` away from `add`.
pub fn is_lost(old: f32, add: f32, sum: f32) -> bool
    ensures { result ≡ lost_by old add sum }
{
    (sum == old) | is_above(sum - old - add, add * 0.125)
}
