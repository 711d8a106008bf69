// What the search for u finds, what its steps hand on, and the value with the search behind it.
ghost use Rattle.std.specs.Prelude.{◌≡◌};
ghost use Rattle.bezier.specs.Bezier.{plain_of, found_by, with_value};

// A u, and the search for it: how many x and how many derivatives were evaluated, and whether the last x met the tolerance. The u stands either way, so `settled` is no Option; and `FoundWithin` and `SettledNear` speak of the u, so it is no Found with the u for its value. derivatives is a byte for the sake of the mark behind it: at a place that is a multiple of four the mark would be read as a word just after it was written as a byte, for which a processor waits.
#[derive(Clone, Copy)]
pub struct Solved {
    pub u: f32,
    pub xs: u32,
    pub derivatives: u8,
    pub settled: bool,
}

impl Solved {
    // The value at u.
    pub fn found(self, value: f32) -> Found
        ensures { result ≡ found_by self value }
    {
        Found {
            value,
            settled: self.settled,
            xs: self.xs,
            derivatives: self.derivatives,
        }
    }
}

// A value, and the search behind it, as in Solved.
#[derive(Clone, Copy)]
pub struct Found {
    pub value: f32,
    pub xs: u32,
    pub derivatives: u8,
    pub settled: bool,
}

impl Found {
    // Found without a search.
    pub fn plain(value: f32) -> Found
        ensures { result ≡ plain_of value }
    {
        Found {
            value,
            settled: true,
            xs: 0,
            derivatives: 0,
        }
    }

    // Another value, by the same search.
    pub fn with_value(self, value: f32) -> Found
        ensures { result ≡ with_value value self }
    {
        Found {
            value,
            settled: self.settled,
            xs: self.xs,
            derivatives: self.derivatives,
        }
    }
}

// What a Newton step finds at u: the curve's x is near enough to t, the curve is too flat there to go on, or the next u.
#[derive(Clone, Copy)]
pub enum Turn {
    Near,
    Flat,
    Next(f32),
}

// The span that is halved, and the u in it that is tried next.
#[derive(Clone, Copy)]
pub struct Span {
    pub low: f32,
    pub high: f32,
    pub u: f32,
}
