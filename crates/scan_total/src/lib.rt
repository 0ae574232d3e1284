// A running total as a value: the sum of the divisors taken so far, as plain numbers, how many they were, and the pole that they are for.
#![tactic(auto)]

ghost use Rattle.scan_total.specs.Totals.{Fresh, ToTake, Taken};

use curve::Curve;
use divisor::Divisor;

pub mod numbers;
pub mod resume;

#[derive(Clone, Copy)]
pub struct Running {
    pub divisor: Divisor,
    pub count: u64,
    pub pole: u32,
}

impl Running {
    pub fn fresh(pole: u32) -> Running
        ensures { Fresh pole result }
    {
        Running {
            divisor: Divisor::neutral(),
            count: 0,
            pole,
        }
    }

    // One divisor more, where the total's own, taken up again, is `total`.
    pub fn take(self, c: Curve, total: Divisor, d: Divisor) -> Running
        requires { ToTake c self total d }
        ensures { Taken c self total d result }
    {
        Running {
            divisor: numbers::numbers_of(jacobian::sum(c, total, d), c.prime.m),
            count: self.count + 1,
            pole: self.pole,
        }
    }
}
