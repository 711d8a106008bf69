// The calls that read an event log.
ghost use Rattle.std.specs.Prelude.{◌≡◌};
ghost use Rattle.capi.specs.Answers.{answering};
ghost use Rattle.capi.specs.Replays.{lax_replay, lax_replay_on};

#[unsafe(no_mangle)]
pub extern "C" fn lax_log_replay(
    w: &mut [u32; 18],
    log: &[u8],
    gaps: &mut [u16],
    reached: &mut [u64; 4],
) -> u32
    ensures { answering result (record { words = w.new; gaps = gaps.new; reached = reached.new }) ≡ lax_replay w.old log.now gaps.old reached.old }
{
    capi::lax_log_replay(w, log, gaps, reached)
}

#[unsafe(no_mangle)]
pub extern "C" fn lax_log_replay_on(
    w: &mut [u32; 18],
    records: &[u8],
    gaps: &mut [u16],
    reached: &mut [u64; 4],
) -> u32
    ensures { answering result (record { words = w.new; gaps = gaps.new; reached = reached.new }) ≡ lax_replay_on w.old records.now gaps.old reached.old }
{
    capi::lax_log_replay_on(w, records, gaps, reached)
}
