// A log from its first record to its last, a part at a time.
use refusal::Refusal;
use std::fs::File;
use std::rt::HostRuntime;
use survey::{Survey, survey_on};
use tween::Tween;

// first is the number of the first record. failed: a read failed.
#[derive(Clone, Copy)]
pub struct Walk {
    pub survey: Survey,
    pub bytes: u64,
    pub first: Option<u16>,
    pub failed: bool,
}

fn first_number(records: &[u8]) -> Option<u16> {
    if records.len() < 8 {
        return None;
    }
    Some(reader::number_in(reader::record_at(records, 0)))
}

impl Walk {
    fn begin(t: Tween) -> Walk {
        Walk {
            survey: survey::begin(t),
            bytes: 0,
            first: None,
            failed: false,
        }
    }

    pub fn is_refused(&self) -> bool {
        matches!(self.survey.outcome, Err(_))
    }

    // Before the end of the log.
    pub fn is_stopped(&self) -> bool {
        self.failed | self.is_refused()
    }

    fn hear(&mut self, part: &[u8]) {
        self.survey = survey_on(self.survey, part);
        self.bytes = self.bytes.wrapping_add(part.len() as u64);
        if self.first.is_none() {
            self.first = first_number(part);
        }
        // the log was read to its end, and has bytes left over behind the last record
        if !self.is_stopped() & (part.len() % 8 != 0) {
            self.survey.outcome = Err(Refusal::WrongLength);
        }
    }

    // The next 65,536 bytes of the log; whether there were as many.
    fn read_on(&mut self, rt: &HostRuntime, file: &mut File) -> bool {
        let mut buffer = io::large_buffer();
        let filled = tools::fill_from(rt, file, 2, &mut buffer);
        self.failed = filled.failed;
        self.hear(filled.bytes);
        filled.bytes.len() == 65536
    }
}

// Whether a log has more than 32 MiB, or may have.
fn is_long(length: Option<u64>) -> bool {
    length.is_none_or(|n| n > 33554432)
}

// Each 16 MiB, on standard error.
fn say_progress(rt: &HostRuntime, bytes: u64) {
    if bytes % 16777216 == 0 {
        let _said = eprintln!(rt; "audit: {} MiB read", bytes / 1048576);
    }
}

// The whole log, behind its head.
pub fn all(rt: &HostRuntime, file: &mut File, t: Tween, length: Option<u64>) -> Walk {
    let long = is_long(length);
    let mut w = Walk::begin(t);
    for _ in 0..u64::MAX {
        let goes_on = w.read_on(rt, file);
        if w.is_stopped() | !goes_on {
            return w;
        }
        if long {
            say_progress(rt, w.bytes);
        }
    }
    w
}
