// Steps of equal height.
ghost use Rattle.std.specs.Prelude.{◌≡◌};
ghost use Rattle.curves.specs.Stairs.{steps_of};

// n steps, and 1 where n is 0.
pub fn steps(t: f32, n: u32) -> f32
    ensures { result ≡ steps_of t n }
{
    if t == 0.0 {
        return 0.0;
    }
    let count = std::num::nearest_u32_to_f32(n.max(1));
    math::clamp01(math::ceil(t * count) / count)
}
