// Bytes that came from outside, so that a terminal takes none of them for an order.
ghost use Rattle.std.specs.Prelude.{◌≡◌};
ghost use Rattle.tools.specs.Quoting.{plain_of};

use std::fmt;

fn is_plain(b: u8) -> bool
    ensures { result ≡ plain_of b }
{
    (b >= 0x20) & (b <= 0x7e) & (b != b'\\')
}

#[derive(Clone, Copy)]
pub struct Plain<'a>(pub &'a [u8]);

impl<'a> fmt::Display for Plain<'a> {
    fn fmt<W: fmt::Write>(&self, f: &mut fmt::Formatter<W>) -> fmt::Result {
        for b in self.0 {
            if is_plain(*b) {
                f.write_char(char::from(*b))?;
            } else {
                write!(f, "\\x{b:02x}")?;
            }
        }
        Ok(())
    }
}

// Between quotation marks; of more than 40 bytes the first 40, and two points behind them.
#[derive(Clone, Copy)]
pub struct Quote<'a>(pub &'a [u8]);

impl<'a> fmt::Display for Quote<'a> {
    fn fmt<W: fmt::Write>(&self, f: &mut fmt::Formatter<W>) -> fmt::Result {
        let text = self.0;
        match text.get(..40) {
            Some(front) if text.len() > 40 => write!(f, "'{}' ..", Plain(front)),
            _ => write!(f, "'{}'", Plain(text)),
        }
    }
}
