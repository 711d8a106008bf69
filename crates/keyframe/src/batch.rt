// The values of a track at many times.
ghost use Rattle.std.specs.Prelude.{◌≡◌, take};
ghost use Rattle.keyframe.specs.Batch.{batch_number, batch_out, batch_count, batch_unsettled, batch_answer, none_filled};

use crate::refusing::fill_outcome;
use crate::types::{Filled, Track};
use refusal::Refusal;

fn none_filled(refusal: Refusal) -> Filled
    ensures { result ≡ none_filled refusal }
{
    Filled {
        filled: 0,
        unsettled: 0,
        refusal: refusal.number(),
    }
}

impl Track {
    // The value at each time goes into the front of out. Refused: 4; 10 where there are no frames; 12
    // where out is shorter than times.
    pub fn fill_values(self, times: &[f32], out: &mut [f32]) -> Filled
        ensures answer { result ≡ batch_answer self times.now out.old }
        ensures output { out.new ≡ batch_out self times.now out.old }
    {
        if !self.is_within_limits() {
            return none_filled(Refusal::RecordBreaksLimit);
        }
        if let Err(refusal) = fill_outcome(self.count, times.len(), out.len()) {
            return none_filled(refusal);
        }
        let list = self.frames;
        let unsettled = frames::fill(list, self.count, times, out);
        Filled {
            filled: times.len(),
            unsettled,
            refusal: 0,
        }
    }

    // The filled front of out. What lies behind it is in `fill_values`. The refusal's number goes into
    // refusal, 0 for none; how many of the samples did not settle goes into unsettled, 0 where refused.
    pub fn values_at<'a>(
        self,
        times: &[f32],
        out: &'a mut [f32],
        refusal: &mut u32,
        unsettled: &mut usize,
    ) -> &'a mut [f32]
        ensures front { result.now ≡ take (batch_count self times.now out.old) (batch_out self times.now out.old) }
        ensures place { result.ref_ptr ≡ out.entry.ref_ptr }
        ensures number { refusal.new ≡ batch_number self times.now out.old }
        ensures unsettled { unsettled.new ≡ batch_unsettled self times.now out.old }
    {
        let answer = self.fill_values(times, out);
        *refusal = answer.refusal;
        *unsettled = answer.unsettled;
        &mut out[..answer.filled]
    }
}
