// The numbers at the ticks of an axis.
ghost use Rattle.std.specs.Prelude.{◌≤◌};

use crate::axis::{Power, Step};
use crate::numbers::whole_to;
use std::fmt;

// n times 10^-places.
#[derive(Clone, Copy)]
struct Scaled {
    n: u64,
    places: u32,
}

impl Scaled {
    // Without zeros at the end. It goes down two numbers while both allow, and counts no index.
    fn trimmed(self) -> Scaled {
        let mut it = self;
        while (it.places > 0) && (it.n % 10 == 0) {
            it.n /= 10;
            it.places -= 1;
        }
        it
    }

    // Whether it is shorter with an exponent.
    fn is_small(self) -> bool {
        (self.places > 9) | ((self.places > 6) & (self.n < 1000))
    }
}

// 10^n, for n up to 9.
fn ten_to(n: u32) -> u64
    ensures { (1 ≤ result) × (result ≤ 1000000000) }
{
    10u64.pow(n.min(9))
}

impl fmt::Display for Scaled {
    fn fmt<W: fmt::Write>(&self, f: &mut fmt::Formatter<W>) -> fmt::Result {
        let (n, places) = (self.n, self.places);
        if self.is_small() {
            return write!(f, "{n}e-{places}");
        }
        let unit = ten_to(places);
        write!(f, "{}", n / unit)?;
        if places > 0 {
            write!(f, ".{:0width$}", n % unit, width = places as usize)?;
        }
        Ok(())
    }
}

// n times 10^zeros.
#[derive(Clone, Copy)]
struct Large {
    n: u64,
    zeros: u32,
}

impl fmt::Display for Large {
    fn fmt<W: fmt::Write>(&self, f: &mut fmt::Formatter<W>) -> fmt::Result {
        if self.zeros > 6 {
            return write!(f, "{}e{}", self.n, self.zeros);
        }
        write!(f, "{}", self.n)?;
        f.write_repeated("0", self.zeros as usize)
    }
}

// The number at a tick, which is so many steps from 0.
#[derive(Clone, Copy)]
pub struct Tick {
    pub step: Step,
    pub steps: f64,
}

impl fmt::Display for Tick {
    fn fmt<W: fmt::Write>(&self, f: &mut fmt::Formatter<W>) -> fmt::Result {
        let n = whole_to(self.steps.abs() + 0.5, 1000000000000000) * u64::from(self.step.digit);
        if n == 0 {
            return write!(f, "0");
        }
        if self.steps < 0.0 {
            write!(f, "-")?;
        }
        match self.step.power {
            Power::Zeros(zeros) => write!(f, "{}", Large { n, zeros }),
            Power::Places(places) => write!(f, "{}", Scaled { n, places }.trimmed()),
        }
    }
}
