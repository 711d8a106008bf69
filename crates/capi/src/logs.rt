// The calls that write an event log.
ghost use Rattle.std.specs.Prelude.{◌≡◌};
ghost use Rattle.event_log.specs.Writing.{head_in};
ghost use Rattle.capi.specs.Answers.{answering};
ghost use Rattle.capi.specs.Logs.{event_in, lax_log_head, lax_log_record, lax_log_buffer};

use crate::answers::{UNKNOWN_WORD, put};
use event_log::{Event, write_head, write_record};

// kind: 1 step, 2 pause, 3 resume, 4 reset. The step, in seconds, is looked at in 1.
fn event_in(w: &[u32; 2]) -> Option<Event>
    ensures { result ≡ event_in w.now }
{
    let kind = w[0];
    match kind {
        1 => Some(Event::Step(math::of_bits(w[1]))),
        2 => Some(Event::Pause),
        3 => Some(Event::Resume),
        4 => Some(Event::Reset),
        _ => None,
    }
}

pub fn lax_log_head(buffer: &mut [u8], written: &mut usize) -> u32
    ensures answer { answering result written.new ≡ lax_log_head buffer.old written.old }
    ensures bytes { buffer.new ≡ (head_in buffer.old).buffer }
{
    put(write_head(buffer), written)
}

// written: how long the log is, before and after.
pub fn lax_log_record(buffer: &mut [u8], written: &mut usize, event: &[u32; 2]) -> u32
    ensures answer { answering result written.new ≡ lax_log_record buffer.old written.old event.now }
    ensures bytes { buffer.new ≡ lax_log_buffer buffer.old written.old event.now }
{
    match event_in(event) {
        Some(e) => put(write_record(buffer, *written, e), written),
        None => UNKNOWN_WORD,
    }
}
