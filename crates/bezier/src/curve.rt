// The cubic Bezier curve in one coordinate: from 0 to 1, with the control points a1 and a2 between.
ghost use Rattle.std.specs.Prelude.{◌≡◌};
ghost use Rattle.bezier.specs.Curve.{sample_cubic_of, sample_cubic_derivative_of};

pub fn sample_cubic(a1: f32, a2: f32, t: f32) -> f32
    ensures { result ≡ sample_cubic_of a1 a2 t }
{
    let c = 3.0 * a1;
    let b = 3.0 * (a2 - a1) - c;
    let a = 1.0 - c - b;
    ((a * t + b) * t + c) * t
}

pub fn sample_cubic_derivative(a1: f32, a2: f32, t: f32) -> f32
    ensures { result ≡ sample_cubic_derivative_of a1 a2 t }
{
    let c = 3.0 * a1;
    let b = 3.0 * (a2 - a1) - c;
    let a = 1.0 - c - b;
    (3.0 * a * t + 2.0 * b) * t + c
}
