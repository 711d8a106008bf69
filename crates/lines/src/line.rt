// The words of a line, taken one after another.
ghost use Rattle.std.specs.Prelude.{◌≡◌, ◌<◌, ◌≤◌, length, IfOk, IfErr};
ghost use Rattle.std.specs.List.{slice_range};
ghost use Rattle.decimal.specs.Reading.{read_of};
ghost use Rattle.lines.specs.declared.word.Word.{Word};
ghost use Rattle.lines.specs.Places.{Within};

use crate::expected::{Expected, Mistake};
use crate::word::{Word, word_behind};

#[derive(Clone, Copy)]
pub struct Line<'a> {
    pub text: &'a [u8],
    // Where the next word is looked for.
    pub place: usize,
    // Which line it is, from 1.
    pub number: u64,
}

// A whole number: digits alone.
fn whole(digits: &[u8]) -> Option<u32> {
    if digits.is_empty() {
        return None;
    }
    let mut n: u32 = 0;
    for b in digits {
        if !b.is_ascii_digit() {
            return None;
        }
        n = n.checked_mul(10)?.checked_add((*b - b'0') as u32)?;
    }
    Some(n)
}

impl<'a> Line<'a> {
    // The next word, which is missing at the line's end.
    pub fn word(&mut self) -> Word
        ensures word { Within self.old.text.now result }
        ensures behind { self.old.place ≤ length self.old.text.now → self.old.place ≤ result.from }
        ensures place { self.new.place ≡ result.to }
        ensures text { self.new.text ≡ self.old.text }
    {
        let word = word_behind(self.text, self.place);
        self.place = word.to;
        word
    }

    // The next word as a decimal, to the nearest f32.
    pub fn value(&mut self) -> Result<f32, Mistake>
        ensures value { IfOk result (λ x. (w : Word) × Within self.old.text.now w × (self.old.place ≤ length self.old.text.now → self.old.place ≤ w.from) × (w.to ≡ self.new.place) × (read_of (slice_range self.old.text.now w.from w.to) ≡ Ok x)) }
        ensures mistake { IfErr result (λ m. Within self.old.text.now m.found) }
        ensures text { self.new.text ≡ self.old.text }
    {
        let found = self.word();
        decimal::read(found.bytes(self.text)).map_err(|e| Mistake::new(found, Expected::from(e)))
    }

    // The next word as a whole number.
    pub fn count(&mut self) -> Result<u32, Mistake>
        ensures mistake { IfErr result (λ m. Within self.old.text.now m.found) }
        ensures text { self.new.text ≡ self.old.text }
    {
        let found = self.word();
        whole(found.bytes(self.text)).ok_or(Mistake::new(found, Expected::Count))
    }

    // That there is no word more.
    pub fn end(&mut self) -> Result<(), Mistake>
        ensures mistake { IfErr result (λ m. (Within self.old.text.now m.found) × (m.found.from < m.found.to)) }
        ensures text { self.new.text ≡ self.old.text }
    {
        let found = self.word();
        if found.is_missing() {
            return Ok(());
        }
        Err(Mistake::new(found, Expected::LineEnd))
    }
}
