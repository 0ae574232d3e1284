// One signed digit more of a multiple, on tuples without division.
#![tactic(auto)]

ghost use Rattle.multiple_tuple_step.specs.States.{ToClimb, Climbed};

use curve::Curve;
use divisor::{Divisor, Quadratic};
use field::Residue;
use multiple_tuple::Tuple;

// A partial multiple, over a common Z or plain.
#[derive(Clone, Copy, Debug, PartialEq, Eq)]
pub enum State {
    Free(Tuple),
    Plain(Divisor),
}

// A tuple doubled, and q or its opposite p added as the digit says: over a Z of 0 where a pair is special.
pub fn climb(
    c: Curve,
    f2: Residue,
    f3: Residue,
    f4: Residue,
    q: Quadratic,
    p: Quadratic,
    t: Tuple,
    digit: u8,
) -> Tuple
    requires { ToClimb c f2 f3 f4 q p t }
    ensures { Climbed c q t digit result }
{
    let d = multiple_tuple::double(t, f2, f3, f4, c.prime);
    if d.z.is_zero(c.prime.m) {
        return d; // special, as its Z says
    }
    if digit == scalar::MINUS {
        return multiple_tuple::mixed(d, p, f4, c.prime);
    }
    if digit == scalar::NULL {
        return d;
    }
    multiple_tuple::mixed(d, q, f4, c.prime)
}
