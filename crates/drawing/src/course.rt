// A replay on its way, with what the picture needs of it.
use reader::hear::{Heard, hear};
use reader::{Replay, step_in};
use tween::Tween;

// What the last record was: the one before again, or one of its own, with what is missing before it and the
// folds that it made.
#[derive(Clone, Copy)]
pub enum Came {
    Repeat,
    Record { gap: u64, folds: u64 },
}

#[derive(Clone, Copy)]
pub struct Course {
    pub replay: Replay,
    // In seconds: the sum of the steps, and what it was before the last record.
    pub time: f64,
    pub before: f64,
    pub value: f32,
    pub least: f32,
    pub greatest: f32,
    pub records: u64,
    pub repeats: u64,
    pub came: Came,
    // The number of the refusal that stops it: a picture says no more of it.
    pub refused: Option<u32>,
}

// The value of a tween, where it has a finite one.
fn value_in(t: Tween) -> Option<f32> {
    match t.value() {
        Ok(found) if math::is_finite(found.value) => Some(found.value),
        _ => None,
    }
}

impl Course {
    // A tween, before the first record.
    pub fn begin(t: Tween) -> Course {
        let value = value_in(t).unwrap_or(0.0);
        let replay = Replay {
            tween: t,
            last: None,
            missing: 0,
            folds: 0,
        };
        Course {
            replay,
            time: 0.0,
            before: 0.0,
            value,
            least: value,
            greatest: value,
            records: 0,
            repeats: 0,
            came: Came::Record { gap: 0, folds: 0 },
            refused: None,
        }
    }

    // With a record that is the one before again.
    fn repeat(&mut self) {
        self.records = self.records.wrapping_add(1);
        self.repeats = self.repeats.wrapping_add(1);
        self.came = Came::Repeat;
    }

    // Goes on to a replay, by so many seconds.
    fn go(&mut self, to: Replay, gap: u64, seconds: f64) {
        let folds = to.folds.wrapping_sub(self.replay.folds);
        self.came = Came::Record { gap, folds };
        self.replay = to;
        self.before = self.time;
        self.time += seconds;
        self.records = self.records.wrapping_add(1);
        self.value = value_in(to.tween).unwrap_or(self.value);
        if self.value < self.least {
            self.least = self.value;
        }
        if self.value > self.greatest {
            self.greatest = self.value;
        }
    }

    // With the next record.
    pub fn hear(&mut self, bytes: [u8; 8]) {
        match hear(self.replay, bytes) {
            Ok(heard) if heard.gap == 65535 => self.repeat(),
            Ok(heard) => self.go(
                heard.reached,
                u64::from(heard.gap),
                f64::from(step_in(bytes)),
            ),
            Err(refusal) => self.refused = Some(refusal.number()),
        }
    }

    // With an update that no record asks for.
    pub fn step(&mut self, step: f32) {
        match self.replay.tween.update(step) {
            Ok(updated) => {
                let to = Replay {
                    tween: updated.tween,
                    last: None,
                    missing: 0,
                    folds: self.replay.folds.wrapping_add(u64::from(updated.folds)),
                };
                self.go(to, 0, f64::from(step));
            }
            Err(rejected) => self.refused = Some(rejected.refusal.number()),
        }
    }
}
