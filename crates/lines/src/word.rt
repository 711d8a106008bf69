// Where words stand.
ghost use Rattle.std.specs.Prelude.{◌≡◌, ◌==◌, ◌≤◌, ◌<◌, length};
ghost use Rattle.std.specs.List.{slice_range};
ghost use Rattle.lines.specs.Places.{Within, Onward};

// The bytes of a text from `from` on, before `to`. Where both are equal there is no word. Places, since Within and
// Onward speak of them; `bytes` has the slice.
#[derive(Clone, Copy)]
pub struct Word {
    pub from: usize,
    pub to: usize,
}

impl Word {
    pub fn is_missing(self) -> bool
        ensures { result ≡ (self.from == self.to) }
    {
        self.from == self.to
    }

    // Nothing where it is no word of the text.
    pub fn bytes(self, text: &[u8]) -> &[u8]
        ensures { Within text.now self → result.now ≡ slice_range text.now self.from self.to }
    {
        text.get(self.from..self.to).unwrap_or(&[])
    }
}

fn is_blank(b: u8) -> bool {
    matches!(b, b' ' | b'\t' | b'\r')
}

fn ends_line(b: u8) -> bool {
    matches!(b, b'\n' | b'#')
}

// The first place from `from` on whose byte is sought, or the end.
fn first_place<F: Fn(u8) -> bool>(text: &[u8], from: usize, is_sought: F) -> usize
    requires from { from ≤ length text.now }
    requires sought { F.IsAlwaysCallable is_sought }
    ensures { (from ≤ result) × (result ≤ length text.now) }
{
    match text[from..].iter().position(|b| is_sought(*b)) {
        Some(n) => from + n,
        None => text.len(),
    }
}

// The next word of a line, at or behind a place of it.
pub fn word_behind(text: &[u8], place: usize) -> Word
    ensures word { Within text.now result }
    ensures behind { place ≤ length text.now → place ≤ result.from }
{
    if place > text.len() {
        return Word {
            from: text.len(),
            to: text.len(),
        };
    }
    let from = first_place(text, place, |b| !is_blank(b));
    let to = first_place(text, from, |b| is_blank(b) | ends_line(b));
    Word { from, to }
}

// Where the next line begins, or the end.
pub fn line_behind(text: &[u8], place: usize) -> usize
    ensures { Onward text.now place result }
{
    if place >= text.len() {
        return text.len();
    }
    let end = first_place(text, place, |b| b == b'\n');
    if end == text.len() { end } else { end + 1 }
}
