// What is drawn, by columns of one pixel. Lengths are in tenths of a pixel.
ghost use Rattle.std.specs.Prelude.{◌≡◌, None};

use crate::course::{Came, Course};
use crate::frame::{Frame, across, column_at, height_at};

pub const COLUMNS: usize = 841;

// Where the curve enters a column and leaves it, from above and from the left; its highest and lowest heights.
#[derive(Clone, Copy)]
pub struct Trace {
    pub enters: u64,
    pub enters_at: u64,
    pub leaves: u64,
    pub leaves_at: u64,
    pub top: u64,
    pub bottom: u64,
}

#[derive(Clone, Copy)]
pub struct Column {
    // The curve, where it comes here.
    pub trace: Option<Trace>,
    pub passes: u64,
    // Updates that made more than one pass, and the most passes of one.
    pub bursts: u64,
    pub most: u64,
    pub gaps: u64,
    pub missing: u64,
    pub repeats: u64,
}

// All columns, and where in the picture a time and a value stand. The columns are lent: they have some 90 KB, and a
// struct that is built of them stands on the stack three times.
#[derive(Clone, Copy)]
pub struct Table<'a> {
    pub frame: &'a Frame,
    pub columns: &'a [Column; COLUMNS],
}

impl Column {
    // Nothing is drawn yet.
    pub fn empty() -> Column
        ensures { result ≡ record { trace = None; passes = 0; bursts = 0; most = 0; gaps = 0; missing = 0; repeats = 0 } }
    {
        Column {
            trace: None,
            passes: 0,
            bursts: 0,
            most: 0,
            gaps: 0,
            missing: 0,
            repeats: 0,
        }
    }

    // The curve comes to a point.
    fn trace_to(&mut self, x: u64, height: u64) {
        match &mut self.trace {
            Some(trace) => {
                trace.leaves = height;
                trace.leaves_at = x;
                trace.top = trace.top.min(height);
                trace.bottom = trace.bottom.max(height);
            }
            None => {
                self.trace = Some(Trace {
                    enters: height,
                    enters_at: x,
                    leaves: height,
                    leaves_at: x,
                    top: height,
                    bottom: height,
                });
            }
        }
    }

    // The passes of one update that ends here.
    fn note_passes(&mut self, passes: u64) {
        self.passes = self.passes.wrapping_add(passes);
        if passes > 1 {
            self.bursts = self.bursts.wrapping_add(1);
            self.most = self.most.max(passes);
        }
    }

    // What is missing from here on.
    fn note_missing(&mut self, gap: u64) {
        self.gaps = self.gaps.wrapping_add(1);
        self.missing = self.missing.wrapping_add(gap);
    }
}

// What the last record of a course adds.
pub fn note(columns: &mut [Column; COLUMNS], frame: &Frame, c: &Course) {
    let (x, height) = (across(&frame.time, c.time), height_at(frame, c.value));
    let (from, to) = (column_at(frame, c.before), column_at(frame, c.time));
    match c.came {
        Came::Repeat => {
            let column = &mut columns[to];
            column.repeats = column.repeats.wrapping_add(1);
        }
        Came::Record { gap, folds } => {
            if gap > 0 {
                columns[from].note_missing(gap);
            }
            let column = &mut columns[to];
            column.note_passes(folds);
            column.trace_to(x, height);
        }
    }
}
