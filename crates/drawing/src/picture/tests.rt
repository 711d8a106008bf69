// Pictures where printing fails, and whole.
use super::*;
use crate::columns::{COLUMNS, Column};
use crate::frame::frame_of;
use crate::page::Page;
use std::cell::Cell;
use std::fmt::Display;

// Takes pieces, and fails from one of them on, with the number of the piece as the error's.
#[derive(Drop)]
struct Failing {
    from: i32,
    tried: Cell<i32>,
}

impl Failing {
    fn at(from: i32) -> Failing {
        Failing {
            from,
            tried: Cell::new(0),
        }
    }

    fn take(&self) -> io::Result<()> {
        let piece = self.tried.get();
        self.tried.set(piece.wrapping_add(1));
        if piece < self.from {
            return Ok(());
        }
        Err(io::Error::from_raw_os_error(piece))
    }

    // How many pieces were tried, and the error that was answered.
    fn with(&self, answer: io::Result<()>) -> (i32, Option<i32>) {
        let error = match answer {
            Ok(()) => None,
            Err(error) => error.raw_os_error(),
        };
        (self.tried.get(), error)
    }
}

impl Print for Failing {
    fn print<D: Display + Drop>(&self, _piece: D) -> io::Result<()> {
        self.take()
    }

    fn println<D: Display + Drop>(&self, _piece: D) -> io::Result<()> {
        self.take()
    }

    fn write_all(&self, _bytes: &[u8]) -> io::Result<()> {
        self.take()
    }
}

#[test]
fn pictures_end_at_the_first_error_and_answer_it(rt: HostRuntime) {
    let t = Tween::new(0.0, 8.0);
    let c = Course::begin(t);
    let columns = [Column::empty(); COLUMNS];
    let table = Table {
        frame: &frame_of(&c),
        columns: &columns,
    };
    let shown = Shown {
        passes: 1,
        of: None,
    };
    assert!(rt; picture_of_log(&rt, t, &table, &c).is_ok());
    assert!(rt; picture_of_ramp(&rt, t, &table, &c, shown).is_ok());
    // the head has 10 pieces, the title 7, the grid 18, the axes 19, the curve 2, the end 1; the line below the
    // title 3, and of a ramp with no end one more
    for from in [0, 1, 12, 19, 59, 60, 61] {
        let (log, ramp) = (Failing::at(from), Failing::at(from));
        let logged = up_to_error(&log, |page| print_log(page, t, &table, &c));
        let ramped = up_to_error(&ramp, |page| print_ramp(page, t, &table, &c, shown));
        let ended = (from + 1, Some(from));
        let log_ended = if from < 60 { ended } else { (60, None) };
        let ramp_ended = if from < 61 { ended } else { (61, None) };
        assert_eq!(rt; log.with(logged), log_ended, "a log, from {from}");
        assert_eq!(rt; ramp.with(ramped), ramp_ended, "a ramp, from {from}");
    }
}

#[test]
fn a_page_goes_on_up_to_an_error(rt: HostRuntime) {
    let failing = Failing::at(1);
    let page = Page::new(&failing);
    let _ = print!(page; "");
    assert!(rt; page.goes_on());
    let _ = print!(page; "");
    assert!(rt; !page.goes_on());
    assert_eq!(rt; failing.with(page.written()), (2, Some(1)));
}
