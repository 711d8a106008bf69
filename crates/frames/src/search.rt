// The interval of a time among ascending times.
ghost use Rattle.std.specs.Prelude.{◌≡◌, ◌-◌, ◌<◌, ◌≤◌};
ghost use Rattle.frames.specs.Inner.{counted};

// How many of the first n times, the first and the last left out, are at or before t: on ascending
// times the place of t's interval. No branch goes by t; with u32 the compiler counts four at once.
pub fn interval(times: &[f32; 64], n: usize, t: f32) -> usize
    requires { (1 ≤ n) × (n ≤ 64) }
    ensures { (result < 63) × (result ≡ counted times.now t (n - 1)) }
{
    let last = n - 1;
    let mut count: u32 = 0;
    for i in 1..last {
        count += (times[i] <= t) as u32;
    }
    count as usize
}
