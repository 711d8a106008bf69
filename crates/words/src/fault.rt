// Why a call over words is refused.
ghost use Rattle.std.specs.Prelude.{◌≡◌};
ghost use Rattle.words.specs.declared.fault.Fault.TheVariants.{Refused};
ghost use Rattle.words.specs.Faults.{fault_number};

use crate::kinds::UNKNOWN_WORD;
use refusal::Refusal;

#[derive(Clone, Copy)]
pub enum Fault {
    // A word is no kind, no mode or no state.
    UnknownWord,
    Refused(Refusal),
}

impl Fault {
    pub fn number(self) -> u32
        ensures { result ≡ fault_number self }
    {
        match self {
            Fault::UnknownWord => UNKNOWN_WORD,
            Fault::Refused(kind) => kind.number(),
        }
    }
}

impl From<Refusal> for Fault {
    ghost from_gives = { λ refusal fault. fault ≡ Refused refusal };

    fn from(refusal: Refusal) -> Fault {
        Fault::Refused(refusal)
    }
}
