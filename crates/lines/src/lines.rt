// The lines of a text, in order.
ghost use Rattle.std.specs.Prelude.{◌≡◌, ◌+◌, ◌-◌, ◌≤◌, length, ◌<◌, IfSome};
ghost use Rattle.std.specs.Iterator.{at_most};
ghost use Rattle.lines.specs.Places.{Onward};

use crate::line::Line;
use crate::word::line_behind;

#[derive(Clone, Copy)]
pub struct Lines<'a> {
    pub text: &'a [u8],
    // Where the next line begins, and which it is, from 1.
    pub place: usize,
    pub number: u64,
    ghost inside: { place ≤ length text.now },
    ghost few: { number ≤ place + 1 },
}

impl<'a> Lines<'a> {
    pub fn of(text: &'a [u8]) -> Lines<'a>
        ensures text { result.text.now ≡ text.now }
        ensures place { result.place ≡ 0 }
        ensures number { result.number ≡ 1 }
    {
        Lines {
            text,
            place: 0,
            number: 1,
        }
    }

    // The line at the place, which then is the next line's.
    fn line(&mut self) -> Option<Line<'a>>
        ensures line { IfSome result (λ line. (line.text.now ≡ self.old.text.now) × (line.place ≡ self.old.place) × (line.number ≡ self.old.number)) }
        ensures number { IfSome result (λ _. self.new.number ≡ self.old.number + 1) }
        ensures place { IfSome result (λ _. (self.old.place < length self.old.text.now) × Onward self.old.text.now self.old.place self.new.place) }
        ensures text { self.new.text ≡ self.old.text }
    {
        let text = self.text;
        let place = self.place;
        if place >= text.len() {
            return None;
        }
        let line = Line {
            text,
            place,
            number: self.number,
        };
        *self = Lines {
            text,
            place: line_behind(text, place),
            number: self.number + 1,
        };
        Some(line)
    }
}

impl<'a> Iterator for Lines<'a> {
    type Item = Line<'a>;

    ghost remaining = { λ s. at_most (length s.text.now - s.place) };

    fn next(&mut self) -> Option<Line<'a>> {
        self.line()
    }
}
