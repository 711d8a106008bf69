// The calls that write a log.
ghost use Rattle.std.specs.Prelude.{◌≡◌};
ghost use Rattle.event_log.specs.Writing.{head_in, record_in, number_behind};

use crate::event::{Event, record};
use crate::head::{has_mark, has_version};
use refusal::Refusal;

// The head, at the buffer's start; answered is how long the written log is now, in bytes. Refused: 13 where the buffer is shorter than 5 bytes.
pub fn write_head(buffer: &mut [u8]) -> Result<usize, Refusal>
    ensures answer { result ≡ (head_in buffer.old).answer }
    ensures bytes { buffer.new ≡ (head_in buffer.old).buffer }
{
    if buffer.len() < 5 {
        return Err(Refusal::NoRoom);
    }
    let head = [b'P', b'E', b'L', 1, 0];
    buffer[..5].copy_from_slice(&head);
    Ok(5)
}

// The number of the record that goes behind a log.
fn number_behind(log: &[u8]) -> u16
    ensures { result ≡ number_behind log.now }
{
    if log.len() < 13 {
        return 0;
    }
    let at = log.len() - 8;
    let last = u16::from_le_bytes([log[at], log[at + 1]]);
    last.wrapping_add(1)
}

// One record, behind the first `written` bytes of the buffer; answered is how long the log is then. Refused: 5; 14; 17 where `written` is beyond
// the buffer; 15; 16; 17; 13.
pub fn write_record(buffer: &mut [u8], written: usize, event: Event) -> Result<usize, Refusal>
    ensures answer { result ≡ (record_in buffer.old written event).answer }
    ensures bytes { buffer.new ≡ (record_in buffer.old written event).buffer }
{
    let step = event.step();
    if step > 16777216.0 {
        return Err(Refusal::StepTooLong);
    }
    if math::is_nan(step) | (step < 0.0) {
        return Err(Refusal::StepBelowZero);
    }
    if written > buffer.len() {
        return Err(Refusal::WrongLength);
    }
    if !has_mark(&buffer[..written]) {
        return Err(Refusal::WrongMark);
    }
    if !has_version(&buffer[..written]) {
        return Err(Refusal::UnknownVersion);
    }
    if (written - 5) % 8 != 0 {
        return Err(Refusal::WrongLength);
    }
    if buffer.len() - written < 8 {
        return Err(Refusal::NoRoom);
    }
    let next = record(number_behind(&buffer[..written]), event);
    buffer[written..written + 8].copy_from_slice(&next);
    Ok(written + 8)
}
