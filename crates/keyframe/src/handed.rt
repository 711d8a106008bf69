// The track that a call hands back.
ghost use Rattle.std.specs.Prelude.{◌≡◌};
ghost use Rattle.keyframe.specs.Stepping.{moved_of};

use crate::types::Track;

// What moves, put into a track.
pub fn moved(track: Track, elapsed: f32, loop_count: u32, complete: bool) -> Track
    ensures { result ≡ moved_of track elapsed loop_count complete }
{
    let mut u = track;
    u.elapsed = elapsed;
    u.loop_count = loop_count;
    u.complete = complete;
    u
}
