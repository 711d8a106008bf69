// Pieces of the picture.
use std::fmt;

// A length in tenths of a pixel.
#[derive(Clone, Copy)]
pub struct Tenths(pub u64);

impl fmt::Display for Tenths {
    fn fmt<W: fmt::Write>(&self, f: &mut fmt::Formatter<W>) -> fmt::Result {
        write!(f, "{}", self.0 / 10)?;
        if self.0 % 10 != 0 {
            write!(f, ".{}", self.0 % 10)?;
        }
        Ok(())
    }
}

// A point, in tenths of a pixel from the left and from above.
#[derive(Clone, Copy)]
pub struct Point(pub u64, pub u64);

impl fmt::Display for Point {
    fn fmt<W: fmt::Write>(&self, f: &mut fmt::Formatter<W>) -> fmt::Result {
        write!(f, "{},{}", Tenths(self.0), Tenths(self.1))
    }
}
