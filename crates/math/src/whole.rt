// Whole numbers of a float.
ghost use Rattle.std.specs.Prelude.{◌≡◌};
ghost use Rattle.math.specs.Whole.{ceil_of, whole_part_of};

// Rust's `x as u32`: the whole part, 0 below 0 and for a NaN, and 4,294,967,295 from 2^32 on. Std's
// `saturating_f32_to_u32` goes by an f64, for which small processors have no instructions.
pub fn whole_part(x: f32) -> u32
    ensures { result ≡ whole_part_of x }
{
    if x > -1.0 {
        if x < 4294967296.0 {
            return std::num::truncating_f32_to_u64(x) as u32;
        }
        return 4294967295;
    }
    0
}

// Rust's f32::ceil. From 2^24 on, on either side of 0, every float is whole. Std's `ceil` works out the
// floor too.
pub fn ceil(x: f32) -> f32
    ensures { result ≡ ceil_of x }
{
    if (x > 0.0) & (x < 16777216.0) {
        let w = whole_part(x);
        let below = std::num::nearest_u32_to_f32(w);
        if below < x {
            return std::num::nearest_u32_to_f32(w + 1);
        }
        return below;
    }
    if (x < 0.0) & (x > -16777216.0) {
        return -std::num::nearest_u32_to_f32(whole_part(-x));
    }
    x
}
