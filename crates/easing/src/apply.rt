// The value of an easing at a progress.
ghost use Rattle.std.specs.Prelude.{◌≡◌};
ghost use Rattle.bezier.specs.Bezier.{plain_of};
ghost use Rattle.easing.specs.Apply.{limited_of, apply_of};

use crate::kinds::Easing;
use crate::params::{params_of, within};
use bezier::Found;
use refusal::Refusal;
use units::Progress;

// A curve without a search.
fn plain(value: f32) -> Result<Found, Refusal>
    ensures { result ≡ Ok (plain_of value) }
{
    Ok(Found::plain(value))
}

// `fine` says whether the parameters are within their limits.
fn limited(fine: bool, found: Found) -> Result<Found, Refusal>
    ensures { result ≡ limited_of fine found }
{
    if fine {
        Ok(found)
    } else {
        Err(Refusal::EasingParameter)
    }
}

impl Easing {
    // t is clamped to 0..1. Refused: 1 where t is NaN, 2 for the twelve kinds, 3 for a parameter.
    pub fn apply(self, t: Progress) -> Result<Found, Refusal>
        ensures { result ≡ apply_of self t.0 }
    {
        if math::is_nan(t.0) {
            return Err(Refusal::ProgressIsNan);
        }
        let u = math::clamp01(t.0);
        match self {
            Easing::Linear => plain(u),
            Easing::EaseInQuad => plain(curves::ease_in_quad(u)),
            Easing::EaseOutQuad => plain(curves::ease_out_quad(u)),
            Easing::EaseInOutQuad => plain(curves::ease_in_out_quad(u)),
            Easing::EaseInCubic => plain(curves::ease_in_cubic(u)),
            Easing::EaseOutCubic => plain(curves::ease_out_cubic(u)),
            Easing::EaseInOutCubic => plain(curves::ease_in_out_cubic(u)),
            Easing::EaseInQuart => plain(curves::ease_in_quart(u)),
            Easing::EaseOutQuart => plain(curves::ease_out_quart(u)),
            Easing::EaseInOutQuart => plain(curves::ease_in_out_quart(u)),
            Easing::EaseInQuint => plain(curves::ease_in_quint(u)),
            Easing::EaseOutQuint => plain(curves::ease_out_quint(u)),
            Easing::EaseInOutQuint => plain(curves::ease_in_out_quint(u)),
            Easing::EaseInCirc => plain(curves::ease_in_circ(u)),
            Easing::EaseOutCirc => plain(curves::ease_out_circ(u)),
            Easing::EaseInOutCirc => plain(curves::ease_in_out_circ(u)),
            Easing::EaseInBack => plain(curves::ease_in_back(u)),
            Easing::EaseOutBack => plain(curves::ease_out_back(u)),
            Easing::EaseInOutBack => plain(curves::ease_in_out_back(u)),
            Easing::EaseInBounce => plain(curves::ease_in_bounce(u)),
            Easing::EaseOutBounce => plain(curves::ease_out_bounce(u)),
            Easing::EaseInOutBounce => plain(curves::ease_in_out_bounce(u)),
            Easing::CubicBezier(x1, y1, x2, y2) => limited(
                within(params_of(self)),
                bezier::cubic_bezier(u, x1, y1, x2, y2),
            ),
            Easing::Steps(n) => limited(within(params_of(self)), Found::plain(curves::steps(u, n))),
            Easing::SlowMo {
                linear_ratio,
                power,
            } => limited(
                within(params_of(self)),
                Found::plain(curves::slow_mo(u, linear_ratio, power)),
            ),
            Easing::CustomBounce { strength } => limited(
                within(params_of(self)),
                Found::plain(curves::custom_bounce(u, strength)),
            ),
            _ => Err(Refusal::EasingNotSupplied),
        }
    }
}
