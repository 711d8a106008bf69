// The circular curves, for a t from 0 to 1: inner steps of our own crates, which clamp t first. A type for such a t would
// be no plainer: the other curves take any t, so that these three would be called in another way.
ghost use Rattle.std.specs.Prelude.{◌≡◌};
ghost use Rattle.math.specs.Rounded.{◌⊖◌, ◌⊗◌, one_f};
ghost use Rattle.math.specs.Range.{Within};
ghost use Rattle.curves.specs.Circ.{circle_of, in_circ, out_circ, in_out_circ};

use crate::root::sqrt;

// The height at y of the circle of radius 1.
fn circle(y: f32) -> f32
    requires { Within (one_f ⊖ y ⊗ y) }
    ensures { result ≡ circle_of y }
{
    sqrt(1.0 - y * y)
}

pub fn ease_in_circ(t: f32) -> f32
    requires { Within t }
    ensures { result ≡ in_circ t }
{
    1.0 - circle(t)
}

pub fn ease_out_circ(t: f32) -> f32
    requires { Within t }
    ensures { result ≡ out_circ t }
{
    circle(t - 1.0)
}

pub fn ease_in_out_circ(t: f32) -> f32
    requires { Within t }
    ensures { result ≡ in_out_circ t }
{
    if t < 0.5 {
        (1.0 - circle(2.0 * t)) / 2.0
    } else {
        (circle(-2.0 * t + 2.0) + 1.0) / 2.0
    }
}
