// The search for the u at which the curve's x is t.
ghost use Rattle.std.specs.Prelude.{◌≡◌, ◌≤◌};
ghost use Rattle.bezier.specs.Search.{after, turn_of, middle_of, cut_of, bisect_from, solve_of};

use crate::curve::{sample_cubic, sample_cubic_derivative};
use crate::types::{Solved, Span, Turn};

// The curve's x is near enough to t below this distance.
const TOLERANCE: f32 = 0.000001;

// The curve is too flat below this size of its derivative.
const FLAT: f32 = 0.000001;

// The span from low to high, to be tried in the middle.
fn middle(low: f32, high: f32) -> Span
    ensures { result ≡ middle_of low high }
{
    Span {
        low,
        high,
        u: (low + high) * 0.5,
    }
}

// The part of s to go on with, below or above s.u, where the curve is at x.
fn cut(s: Span, x: f32, t: f32) -> Span
    ensures { result ≡ cut_of s x t }
{
    if x < t {
        middle(s.u, s.high)
    } else {
        middle(s.low, s.u)
    }
}

// What is searched: the u at which the curve with the control points x1 and x2 is at t.
#[derive(Clone, Copy)]
pub struct Search {
    pub x1: f32,
    pub x2: f32,
    pub t: f32,
}

impl Search {
    // One Newton step from u.
    fn newton_turn(self, u: f32) -> Turn
        ensures { result ≡ turn_of self.x1 self.x2 self.t u }
    {
        let x = sample_cubic(self.x1, self.x2, u) - self.t;
        if math::is_below(x, TOLERANCE) {
            return Turn::Near;
        }
        let derivative = sample_cubic_derivative(self.x1, self.x2, u);
        if math::is_below(derivative, FLAT) {
            return Turn::Flat;
        }
        Turn::Next(math::clamp01(u - x / derivative))
    }

    // Up to 10 bisections, the first at `from`, behind so many Newton steps. The u of the last is taken unseen: its x is not worked out.
    fn bisect(self, from: f32, steps: u8) -> Solved
        requires { steps ≤ 6 }
        ensures { result ≡ after steps steps (bisect_from self.x1 self.x2 self.t from) }
    {
        let mut s = Span {
            low: 0.0,
            high: 1.0,
            u: from,
        };
        for k in 0..10u32 {
            let u = s.u;
            let x = sample_cubic(self.x1, self.x2, u);
            if math::is_below(x - self.t, TOLERANCE) {
                return Solved {
                    u,
                    settled: true,
                    xs: steps as u32 + k + 1,
                    derivatives: steps,
                };
            }
            s = cut(s, x, self.t);
        }
        Solved {
            u: s.u,
            settled: false,
            xs: steps as u32 + 10,
            derivatives: steps,
        }
    }

    // Newton steps from t, each with an x and a derivative; where they do not end near enough, bisections, again from t.
    pub fn solve(self) -> Solved
        ensures { result ≡ solve_of self.x1 self.x2 self.t }
    {
        let mut u = self.t;
        for made in 0..6u8 {
            match self.newton_turn(u) {
                Turn::Near => {
                    return Solved {
                        u,
                        settled: true,
                        xs: made as u32 + 1,
                        derivatives: made,
                    };
                }
                Turn::Flat => return self.bisect(self.t, made + 1),
                Turn::Next(v) => u = v,
            }
        }
        self.bisect(self.t, 6)
    }
}
