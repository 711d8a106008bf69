// What a frame's easing words are asked, and what they answer.
ghost use Rattle.std.specs.Prelude.{◌≡◌};
ghost use Rattle.words.specs.Kinds.{easing_from};
ghost use Rattle.words.specs.Tracks.{easing_in};
ghost use Rattle.words.specs.Sampling.{plain_kind, easing_fits};
ghost use Rattle.frames.specs.Sampling.{eased_of};

use crate::kinds::{LaxEasing, easing_of};
use bezier::Found;
use easing::Easing;

// A kind that has a curve and no parameters.
pub fn is_plain(kind: u32) -> bool
    ensures { result ≡ plain_kind kind }
{
    (kind < 13) | (18 < kind) & (kind < 25) | (27 < kind) & (kind < 31)
}

// Whether a frame may hold it. Most kinds are plain, and then no easing is built.
pub fn easing_fits(w: LaxEasing) -> bool
    ensures { result ≡ easing_fits w }
{
    if is_plain(w.kind) {
        return true;
    }
    match easing_of(w) {
        Some(e) => e.fits_record(),
        None => false,
    }
}

pub fn eased(w: LaxEasing, p: f32) -> Found
    ensures { result ≡ eased_of (easing_in (easing_from w)) p }
{
    match easing_of(w) {
        Some(e) => frames::eased(e, p),
        None => frames::eased(Easing::Linear, p),
    }
}
