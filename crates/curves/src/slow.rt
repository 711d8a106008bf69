// The curve that is slow in the middle.
ghost use Rattle.std.specs.Prelude.{◌≡◌};
ghost use Rattle.curves.specs.Slow.{slow_part, edge_of, slow_at, slow_mo};

// The slow middle goes from `from` to `to` and is lr wide; mid and edge are the slopes in it and
// beside it.
fn part(t: f32, lr: f32, from: f32, to: f32, mid: f32, edge: f32) -> f32
    ensures { result ≡ slow_part t lr from to mid edge }
{
    if t < from {
        t * edge
    } else if t > to {
        from * edge + lr * mid + (t - to) * edge
    } else {
        from * edge + (t - from) * mid
    }
}

// The slope of the edges, which are 1 - lr of the time.
fn edge_of(lr: f32, mid: f32) -> f32
    ensures { result ≡ edge_of lr mid }
{
    if 1.0 - lr > math::EPSILON {
        (1.0 - mid * lr) / (1.0 - lr)
    } else {
        1.0
    }
}

// Between the ends, where lr and p are in range.
fn slow_at(t: f32, lr: f32, p: f32) -> f32
    ensures { result ≡ slow_at t lr p }
{
    if lr >= 1.0 {
        return t;
    }
    let from = (1.0 - lr) * 0.5;
    let mid = 1.0 / (1.0 + p * (1.0 - lr));
    part(t, lr, from, from + lr, mid, edge_of(lr, mid))
}

// linear_ratio is the part of the time that is slow; the edges are power + 1 times as fast.
pub fn slow_mo(t: f32, linear_ratio: f32, power: f32) -> f32
    ensures { result ≡ slow_mo t linear_ratio power }
{
    if t <= 0.0 {
        return 0.0;
    }
    if t >= 1.0 {
        return 1.0;
    }
    slow_at(t, math::clamp01(linear_ratio), math::max_zero(power))
}
