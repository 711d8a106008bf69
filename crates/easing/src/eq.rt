// Equality of two easings.
ghost use Rattle.std.specs.Prelude.{◌≡◌};
ghost use Rattle.easing.specs.Apply.{eq_of};

use crate::kinds::Easing;
use crate::params::{equal, params_of, within};
use refusal::Refusal;

impl Easing {
    // The same kind with equal parameters; -0 equals 0. Refused for either side: 2, then 3, as `eq_of` has
    // it: PartialEq could refuse nothing.
    pub fn eq(self, other: Easing) -> Result<bool, Refusal>
        ensures { result ≡ eq_of self other }
    {
        if self.is_supplied() & other.is_supplied() {
            let p = params_of(self);
            let q = params_of(other);
            if within(p) & within(q) {
                return Ok((self.kind_number() == other.kind_number()) & equal(p, q));
            }
            return Err(Refusal::EasingParameter);
        }
        Err(Refusal::EasingNotSupplied)
    }
}
