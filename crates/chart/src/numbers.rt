// Whole numbers of an f64.
ghost use Rattle.std.specs.Prelude.{◌≤◌};

// The whole part of x: 0 for what is below 0 or no number, and `most` for what is above it.
pub fn whole_to(x: f64, most: u64) -> u64
    ensures { result ≤ most }
{
    std::num::saturating_f64_to_u64(x).min(most)
}
