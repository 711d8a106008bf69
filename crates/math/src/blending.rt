// How far along a span, and the blend of two values.
ghost use Rattle.std.specs.Prelude.{◌≡◌};
ghost use Rattle.math.specs.Blend.{ratio_of, blend_of};

use crate::range::clamp01;

// How far x is along a span, from 0 to 1: 1 where the span is 0.
pub fn ratio(x: f32, span: f32) -> f32
    ensures { result ≡ ratio_of x span }
{
    if span == 0.0 {
        return 1.0;
    }
    clamp01(x / span)
}

// The source's lerp: a at c = 0, and at c = 1 b up to rounding.
pub fn blend(a: f32, b: f32, c: f32) -> f32
    ensures { result ≡ blend_of a b c }
{
    a + (b - a) * c
}
