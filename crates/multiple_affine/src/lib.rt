// The n-fold multiple of a divisor by left-to-right double-and-add over the scalar's signed digits, with the counts of its steps.
#![tactic(auto)]

ghost use Rattle.rules.specs.Bytes.{number};
ghost use Rattle.multiple_affine.specs.promise.Contracts.{ToStep, Stepped, ToMultiply, Multiplied};

use crate::promise::Multiple;
use curve::Curve;
use divisor::Divisor;
use scalar::Digits;

pub mod promise;

// r doubled, and a or its opposite b added as the digit says.
pub fn step(c: Curve, a: Divisor, b: Divisor, r: Divisor, digit: u8) -> Divisor
    requires { ToStep c a b r }
    ensures { Stepped c a r digit result }
{
    let t = jacobian::double(c, r);
    if digit == scalar::MINUS {
        return jacobian::sum(c, t, b);
    }
    if digit == scalar::NULL {
        return t;
    }
    jacobian::sum(c, t, a)
}

// The highest digit is a itself, so a doubling is made for each digit below it and an addition for each of these that is nonzero.
pub fn affine(c: Curve, a: Divisor, s: &[u8]) -> Multiple
    requires { ToMultiply c a s.now }
    ensures { Multiplied c a (number s.now) result }
{
    let n = Digits::from_bytes(s);
    let length = n.length;
    let nonzeros = n.nonzeros;
    if length == 0 {
        return Multiple {
            divisor: Divisor::neutral(),
            doublings: 0,
            additions: 0,
        };
    }
    let at = n.at;
    let b = jacobian::opposite(c, a);
    let mut r = a;
    for k in (0..length - 1).rev() {
        r = step(c, a, b, r, at[k]);
    }
    Multiple {
        divisor: r,
        doublings: (length - 1) as u64,
        additions: nonzeros - 1,
    }
}
