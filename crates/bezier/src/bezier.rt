// CSS-compatible cubic Bezier easing.
ghost use Rattle.std.specs.Prelude.{◌≡◌};
ghost use Rattle.bezier.specs.Bezier.{bezier_of};

use crate::curve::sample_cubic;
use crate::search::Search;
use crate::types::Found;

// An inner step of our own crates: t comes clamped to 0..1. The x's are clamped here; the y's need not be in 0..1, so that a curve can overshoot.
pub fn cubic_bezier(t: f32, x1: f32, y1: f32, x2: f32, y2: f32) -> Found
    ensures { result ≡ bezier_of t x1 y1 x2 y2 }
{
    if (t == 0.0) | (t == 1.0) {
        return Found::plain(t);
    }
    let search = Search {
        x1: math::clamp01(x1),
        x2: math::clamp01(x2),
        t,
    };
    let solved = search.solve();
    solved.found(sample_cubic(y1, y2, solved.u))
}
