// A text in fixed memory.
ghost use Rattle.std.specs.Prelude.{◌≤◌};

// A text in the first length bytes; the others are 0.
#[derive(Clone, Copy)]
pub struct Text {
    pub bytes: [u8; 64],
    pub length: usize,
    pub ghost short: { length ≤ 64 },
}

impl Text {
    ghost use Rattle.std.specs.Prelude.{◌≡◌, ℕ, List, [], ◌++◌, ◌+◌, length, take};
    ghost use Rattle.decimal.specs.Printing.{Shows};

    pub(crate) fn empty() -> Text
        ensures { Shows result [] }
    {
        Text {
            bytes: [0; 64],
            length: 0,
        }
    }

    // With more bytes behind it.
    pub(crate) fn with(self, more: &[u8]) -> Text
        requires { self.length + length more.now ≤ 64 }
        ensures { (s : List ℕ) → Shows self s → Shows result (s ++ more.now) }
    {
        let mut bytes = self.bytes;
        let length = self.length + more.len();
        bytes[self.length..length].copy_from_slice(more);
        Text { bytes, length }
    }

    // The text itself.
    pub fn as_bytes(&self) -> &[u8]
        ensures { result.now ≡ take self.now.length self.now.bytes }
    {
        &self.bytes[..self.length]
    }
}
