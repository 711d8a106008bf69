// Lists that keep their first, and one that keeps the greatest.

// A record. number is its own, last the one before; what is missing before it; and, of an update, its step
// in seconds and the folds that it made.
#[derive(Clone, Copy)]
pub struct Seen {
    pub place: u64,
    pub gap: u16,
    pub last: u16,
    pub number: u16,
    pub folds: u64,
    pub step: f32,
}

// The first 20 records each that have some missing before them, that repeat the one before, and that made
// more than one fold; and the five that made the most folds, in falling order. least is the folds of the
// fifth, 0 while there is none.
#[derive(Clone, Copy)]
pub struct Lists {
    pub gaps: [Option<Seen>; 20],
    pub repeats: [Option<Seen>; 20],
    pub many: [Option<Seen>; 20],
    pub most: [Option<Seen>; 5],
    pub least: u64,
}

// A record as it is seen at a place, behind the number `last`.
pub fn seen_at(place: u64, bytes: [u8; 8], last: Option<u16>, gap: u16, folds: u64) -> Seen {
    Seen {
        place,
        gap,
        last: last.unwrap_or(0),
        number: reader::number_in(bytes),
        folds,
        step: reader::step_in(bytes),
    }
}

// The folds of a place; 0 where it holds none.
fn folds_in(place: Option<Seen>) -> u64 {
    place.map_or(0, |one| one.folds)
}

// One more at the end of a list, unless it is full.
fn push(list: &mut [Option<Seen>; 20], one: Seen) {
    if let Some(free) = list.iter().position(|place| place.is_none()) {
        list[free] = Some(one);
    }
}

impl Lists {
    pub(crate) fn empty() -> Lists {
        Lists {
            gaps: [None; 20],
            repeats: [None; 20],
            many: [None; 20],
            most: [None; 5],
            least: 0,
        }
    }

    // Of equals the first stays before the others.
    fn note_most(&mut self, one: Seen) {
        let most = &mut self.most;
        if let Some(at) = most.iter().position(|place| folds_in(*place) < one.folds) {
            most[at..].rotate_right(1);
            most[at] = Some(one);
        }
        self.least = folds_in(self.most[4]);
    }

    pub(crate) fn note(&mut self, one: Seen) {
        self.note_most(one);
        if one.folds > 1 {
            push(&mut self.many, one);
        }
        match one.gap {
            0 => {}
            65535 => push(&mut self.repeats, one),
            _ => push(&mut self.gaps, one),
        }
    }
}
