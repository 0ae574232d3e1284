// The second engine: the n-fold multiple by left-to-right double-and-add over signed digits, on tuples without division. Where a step has a special pair, or the genus is 3,
// it is made by the plain sum. Runs of ordinary steps are made on tuples alone.
#![tactic(auto)]

ghost use Rattle.std.specs.Prelude.{◌≡◌, ◌<◌};
ghost use Rattle.rules.specs.Bytes.{number};
ghost use Rattle.divisor.specs.Divisors.{pair};
ghost use Rattle.curve.specs.Curves.{Holds};
ghost use Rattle.multiple_affine.specs.promise.Contracts.{ToMultiply, Multiplied};
ghost use Rattle.multiple_tuple_step.specs.States.{Means, Some, GivesIt};
ghost use Rattle.multiple.specs.Runs.{ToRun, Ran, GoneOn};

use curve::Curve;
use divisor::{Divisor, Quadratic};
use multiple_affine::promise::Multiple;
use multiple_tuple::Tuple;
use multiple_tuple_step::State;
use scalar::Digits;

// How far a run of digits came: k are left.
#[derive(Clone, Copy, Debug, PartialEq, Eq)]
pub struct Run {
    pub state: State,
    pub k: usize,
}

// In plain form, by one inverse at most.
fn plain(c: Curve, s: State) -> Divisor
    requires { Some c s }
    ensures { GivesIt c s result }
{
    match s {
        State::Free(t) => Divisor::Two(multiple_tuple::back(t, c.prime)),
        State::Plain(d) => d,
    }
}

// Over a common Z, where that can be.
fn keep(c: Curve, d: Divisor) -> State
    requires { Holds c d }
    ensures { Means c result (pair c.prime.m d) }
{
    match d {
        Divisor::Two(q) if c.g == 2 => State::Free(multiple_tuple::lift(q, c.prime.m)),
        _ => State::Plain(d),
    }
}

// Digits as long as no pair is special: the curve's coefficients are read once.
fn on_tuples(c: Curve, q: Quadratic, p: Quadratic, at: &[u8], t: Tuple, k: usize) -> Run
    requires { ToRun c (Divisor.Two q) (Divisor.Two p) at.now (State.Free t) k }
    ensures { Ran c (Divisor.Two q) at.now k result }
{
    let f2 = c.f2;
    let f3 = c.f3;
    let f4 = c.f4;
    let mut r = t;
    for j in (0..k).rev() {
        let y = multiple_tuple_step::climb(c, f2, f3, f4, q, p, r, at[j]);
        if y.z.is_zero(c.prime.m) {
            return Run {
                state: State::Free(r),
                k: j + 1,
            };
        }
        r = y;
    }
    Run {
        state: State::Free(r),
        k: 0,
    }
}

// As many digits as can be taken on tuples: where the divisor and its opposite b have weight 2.
fn ahead(c: Curve, a: Divisor, b: Divisor, at: &[u8], r: State, k: usize) -> Run
    requires { ToRun c a b at.now r k }
    ensures { Ran c a at.now k result }
{
    match (r, a, b) {
        (State::Free(t), Divisor::Two(q), Divisor::Two(p)) => on_tuples(c, q, p, at, t, k),
        _ => Run { state: r, k },
    }
}

// These, and the digit after them by the plain sum.
fn further(c: Curve, a: Divisor, b: Divisor, at: &[u8], r: State, k: usize) -> Run
    requires { ToRun c a b at.now r k × (0 < k) }
    ensures { GoneOn c a at.now k result }
{
    let y = ahead(c, a, b, at, r, k);
    if y.k == 0 {
        return y;
    }
    let j = y.k - 1;
    let e = multiple_affine::step(c, a, b, plain(c, y.state), at[j]);
    Run {
        state: keep(c, e),
        k: j,
    }
}

// The highest digit is a itself.
pub fn by_tuples(c: Curve, a: Divisor, s: &[u8]) -> Multiple
    requires { ToMultiply c a s.now }
    ensures { Multiplied c a (number s.now) result }
{
    let n = Digits::from_bytes(s);
    let length = n.length;
    let nonzeros = n.nonzeros;
    if length == 0 {
        return Multiple {
            divisor: Divisor::neutral(),
            doublings: 0,
            additions: 0,
        };
    }
    let at = n.at;
    let b = jacobian::opposite(c, a);
    let mut r = keep(c, a);
    let mut k = length - 1;
    // Not a `for`, as in multiple_affine: a turn takes as many digits as tuples allow.
    while 0 < k {
        let x = further(c, a, b, &at, r, k);
        r = x.state;
        k = x.k;
    }
    Multiple {
        divisor: plain(c, r),
        doublings: (length - 1) as u64,
        additions: nonzeros - 1,
    }
}
