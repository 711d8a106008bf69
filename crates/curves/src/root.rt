// The square root, worked out from the bits: `f32::sqrt` calls C's where a processor has no instruction for it, and the
// library needs no C library. It is an inner step of the circular curves: the module
// is private, so that no other crate can name it, and each use is shown to be of an x from 0 to 1.
ghost use Rattle.std.specs.Prelude.{◌≡◌, ◌*◌, ◌^◌, ◌<◌, ◌≤◌, false, Float};
ghost use Rattle.std.specs.Float.Ieee.Exact.{HasValue};
ghost use Rattle.math.specs.Range.{Within};
ghost use Rattle.curves.specs.Root.{Encloses, Root, sqrt_of};
ghost use Rattle.curves.specs.Inner.{RootOf};

// The product of two fractions: all its digits, and those that are kept where one is in units of 2 ^ -30, in the
// units of the other.
fn product(a: u32, b: u32) -> u64 {
    (a as u64) * (b as u64)
}

fn times(a: u32, b: u32) -> u32 {
    ((product(a, b) >> 30) % 0x1_0000_0000) as u32
}

fn less(a: u32, b: u32) -> u32 {
    a.wrapping_sub(b)
}

// 1 / √m in units of 2 ^ -30, for an m from 1 to 4 in units of 2 ^ -29: by a cubic, at most 0.7 % off.
fn inverse_root(m: u32) -> u32 {
    let inner = less(0x31d6_ec1b, times(0x9c0_f9d2, m));
    less(0x6398_91ca, times(less(0x5e93_107d, times(inner, m)), m))
}

// Near to the root of n. With n as an m from 1 to 4, and an r near to 1 / √m, both m * r and r are multiplied by
// (3 - m * r * r) / 2, twice: Goldschmidt's steps. One leaves them too small; a 3 that is a little larger halves
// that. What is promised is that the square fits its type: that this is mostly the answer makes the root quick,
// and nothing rests on it.
fn guess(n: u64) -> u64
    ensures { result ≤ 0x1000_0000 }
{
    let m = ((n >> 17) % 0x1_0000_0000) as u32;
    let r = inverse_root(m);
    let root = times(m, r);
    // in units of 2 ^ -29, as the next one: `times` takes it for half as much
    let step = less(0x6000_9858, times(root, r));
    let nearer = times(root, step);
    let last = less(0x6000_0001, times(nearer, times(r, step)));
    // from units of 2 ^ -59 to the nearest of 2 ^ -23
    ((product(nearer, last) >> 35) + 1) / 2
}

// The whole number nearest to the root of n, which is from 2 ^ 46 to (2 ^ 24 - 1) * 2 ^ 24, so that
// the root has 24 binary digits. No root is half way between two whole numbers: q is the nearest where
// q * (q - 1) < n ≤ q * (q + 1). From any guess the two loops end there: they count no index.
fn nearest_root(n: u64) -> u64
    requires { (0x4000_0000_0000 ≤ n) × (n ≤ 0xffff_ff00_0000) }
    ensures { Encloses result n }
{
    let mut q = guess(n);
    while n <= q * q - q {
        q -= 1;
    }
    while q * (q + 1) < n {
        q += 1;
    }
    q
}

// The square root of n * 2 ^ `rest` over 2 ^ 298, for an n of 47 binary digits.
fn scaled_root(n: u64, rest: u32) -> f32
    requires { (0x4000_0000_0000 ≤ n) × (n ≤ 0x7fff_ff80_0000) × (rest < 508) }
    ensures { (x : Float) → HasValue x false (n * 2 ^ rest) (2 ^ 298) → Root x result }
{
    // 48 digits, where that leaves an even exponent. A product, for on x86-64 a shift by a number that is not
    // known waits for the call before.
    let q = nearest_root(n * ((1 + rest % 2) as u64));
    // the leading digit of q adds one to the exponent's field
    f32::from_bits(rest / 2 * 0x80_0000 + (q as u32))
}

// The square root of `sig` * 2 ^ `place` smallest values, 2 ^ -149 each.
fn root_of(sig: u32, place: u32) -> f32
    requires { (0 < sig) × (sig < 0x100_0000) × (place < 254) }
    ensures { RootOf sig place result }
{
    let mut n = (sig as u64) << 23;
    let mut rest = place + 126;
    if sig < 0x80_0000 {
        // a subnormal number has fewer digits than 24
        let up = sig.leading_zeros() + 15;
        n = (sig as u64) << up;
        rest = place + 149 - up;
    }
    scaled_root(n, rest)
}

// IEEE 754's square root, of an x from 0 to 1. A zero is its own root, with its sign.
pub fn sqrt(x: f32) -> f32
    requires { Within x }
    ensures { result ≡ sqrt_of x }
{
    if x > 0.0 {
        let bits = f32::to_bits(x);
        let field = bits / 0x80_0000;
        let digits = bits % 0x80_0000;
        if field == 0 {
            return root_of(digits, 0);
        }
        return root_of(0x80_0000 + digits, field - 1);
    }
    x
}
