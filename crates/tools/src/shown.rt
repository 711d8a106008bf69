// Values as they stand in a ramp.
ghost use Rattle.std.specs.Prelude.{Some};
ghost use Rattle.decimal.specs.Printing.{text_of};

use easing::{Easing, Params, params_of};
use loop_mode::Loop;
use std::fmt;

#[derive(Clone, Copy)]
pub struct InRamp<T>(pub T);

// So that it reads back.
impl fmt::Display for InRamp<f32> {
    ghost output = { λ x. Some (text_of x.0) };

    fn fmt<W: fmt::Write>(&self, f: &mut fmt::Formatter<W>) -> fmt::Result {
        let text = decimal::text_of(self.0);
        f.write_str(std::str::from_utf8(text.as_bytes()).map_err(|_| fmt::Error)?)
    }
}

// Its name and its parameters.
impl fmt::Display for InRamp<Easing> {
    fn fmt<W: fmt::Write>(&self, f: &mut fmt::Formatter<W>) -> fmt::Result {
        let easing = self.0;
        let Params {
            a,
            b,
            c,
            d,
            count,
            ..
        } = params_of(easing);
        f.write_str(names::easing(easing))?;
        for x in [a, b, c, d].iter().take(ramp::decimals(easing)) {
            write!(f, " {}", InRamp(*x))?;
        }
        if ramp::has_count(easing) {
            write!(f, " {count}")?;
        }
        Ok(())
    }
}

// Its name and its passes.
impl fmt::Display for InRamp<Loop> {
    fn fmt<W: fmt::Write>(&self, f: &mut fmt::Formatter<W>) -> fmt::Result {
        let mode = self.0;
        f.write_str(names::mode(mode))?;
        if let Loop::Times(passes) | Loop::PingPongTimes(passes) = mode {
            write!(f, " {passes}")?;
        }
        Ok(())
    }
}
