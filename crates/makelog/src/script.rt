// A whole script, before anything is written.
use crate::order::{Order, read_order};
use event_log::Event;
use lines::{Expected, Line, Lines, Mistake};
use refusal::Refusal;

#[derive(Clone, Copy)]
pub enum Cause {
    Wrong(Mistake),
    // The writer refuses the line's event.
    Refused(Refusal),
}

impl From<Mistake> for Cause {
    fn from(mistake: Mistake) -> Cause {
        Cause::Wrong(mistake)
    }
}

impl From<Refusal> for Cause {
    fn from(refusal: Refusal) -> Cause {
        Cause::Refused(refusal)
    }
}

// line counts from 1.
#[derive(Clone, Copy)]
pub struct ScriptError {
    pub line: u64,
    pub cause: Cause,
}

// That the writer takes an event.
fn try_event(event: Event) -> Result<(), Refusal> {
    let mut log = [0u8; 13];
    event_log::write_head(&mut log)?;
    event_log::write_record(&mut log, 5, event)?;
    Ok(())
}

// Whether a record stands just before the next line, where behind says whether one does before this line.
fn judge_line(line: Line<'_>, behind: bool) -> Result<bool, Cause> {
    match read_order(line)? {
        Order::Nothing => Ok(behind),
        Order::Write(event, times) => {
            try_event(event)?;
            Ok(behind | (times > 0))
        }
        Order::Drop(n) => Ok(behind & (n == 0)),
        Order::Repeat(_) if behind => Ok(true),
        Order::Repeat(_) => {
            let word = lines::word_behind(line.text, line.place);
            Err(Cause::from(Mistake::new(word, Expected::RecordBefore)))
        }
    }
}

pub fn judge(text: &[u8]) -> Result<(), ScriptError> {
    let mut behind = false;
    for line in Lines::of(text) {
        behind = judge_line(line, behind).map_err(|cause| ScriptError {
            line: line.number,
            cause,
        })?;
    }
    Ok(())
}
