// The calls that write an event log.
ghost use Rattle.std.specs.Prelude.{◌≡◌};
ghost use Rattle.event_log.specs.Writing.{head_in};
ghost use Rattle.capi.specs.Answers.{answering};
ghost use Rattle.capi.specs.Logs.{lax_log_head, lax_log_record, lax_log_buffer};

#[unsafe(no_mangle)]
pub extern "C" fn lax_log_head(buffer: &mut [u8], written: &mut usize) -> u32
    ensures answer { answering result written.new ≡ lax_log_head buffer.old written.old }
    ensures bytes { buffer.new ≡ (head_in buffer.old).buffer }
{
    capi::lax_log_head(buffer, written)
}

// written: how long the log is, before and after.
#[unsafe(no_mangle)]
pub extern "C" fn lax_log_record(buffer: &mut [u8], written: &mut usize, event: &[u32; 2]) -> u32
    ensures answer { answering result written.new ≡ lax_log_record buffer.old written.old event.now }
    ensures bytes { buffer.new ≡ lax_log_buffer buffer.old written.old event.now }
{
    capi::lax_log_record(buffer, written, event)
}
