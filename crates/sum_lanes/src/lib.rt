// Sixteen running sums side by side, the lanes, that share one inverse: a divisor waits until one has come for each lane; then what the sixteen sums divide by is
// inverted as one product, and taken apart from behind (Montgomery's way). The loop that does so is call_total's: an array lent to it would be copied each time.
#![tactic(auto)]

ghost use Rattle.std.specs.Prelude.{◌≤◌};
ghost use Rattle.curve.specs.Curves.{Gives};
ghost use Rattle.sum_lanes.specs.Lanes.{together, AllHold, lane, waiter};

use crate::openings::Opening;
use curve::Curve;
use divisor::Divisor;
use field::Residue;

pub mod openings;

pub const LANES: usize = 16;

// A divisor that waits: its sum with its lane opened, what that divides by, and the product of what those before it divide by.
#[derive(Clone, Copy)]
pub struct Waiting {
    pub d: Divisor,
    pub o: Opening,
    pub f: Residue,
    pub before: Residue,
}

// What stands where nothing waits.
pub fn nobody(one: Residue) -> Waiting {
    Waiting {
        d: Divisor::neutral(),
        o: Opening::Special,
        f: one,
        before: one,
    }
}

// The lanes added up.
pub fn lane_total(c: Curve, l: [Divisor; LANES]) -> Divisor
    requires { AllHold c (lane l) 16 }
    ensures { Gives c result (together c (lane l) 16) }
{
    let mut t = Divisor::neutral();
    for i in 0..LANES {
        t = jacobian::sum(c, t, l[i]);
    }
    t
}

// The first n that wait added up. The array whole with its n, not a slice: what call_total keeps of it is said of both.
pub fn waiting_total(c: Curve, l: [Waiting; LANES], n: usize) -> Divisor
    requires { (n ≤ 16) × AllHold c (waiter l) n }
    ensures { Gives c result (together c (waiter l) n) }
{
    let mut t = Divisor::neutral();
    for i in 0..n {
        let w = l[i];
        t = jacobian::sum(c, t, w.d);
    }
    t
}
