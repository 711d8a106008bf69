// A track's words that have passed the check.
ghost use Rattle.std.specs.Prelude.{◌≡◌, MatchResult};
ghost use Rattle.words.specs.Faults.{fault_number};
ghost use Rattle.track_words.specs.Checking.{check_of};

use crate::checking::check;
use words::Fault;

#[derive(Clone, Copy)]
pub struct Checked<'a> {
    pub words: &'a [u32; 518],
    pub ghost fine: { check_of words.now ≡ 0 },
}

impl<'a> Checked<'a> {
    pub fn of(words: &'a [u32; 518]) -> Result<Checked<'a>, Fault>
        ensures { MatchResult result (λ track. track.words.now ≡ words.now) (λ fault. fault_number fault ≡ check_of words.now) }
    {
        check(words)?;
        Ok(Checked { words })
    }
}
