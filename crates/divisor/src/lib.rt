// A divisor as it is held: one of four cases, each with exactly its own coefficients. It stands for a pair (u, v) of the rules.
#![tactic(auto)]

ghost use Rattle.std.specs.Prelude.{◌≡◌, ◌≤◌};
ghost use Rattle.algebra.proofs.Zmod.Zmod.{zmod};
ghost use Rattle.field.specs.Residues.{el, Settled, Settles};
ghost use Rattle.divisor.specs.Divisors.{Held, weight_of, RowOf, Opposed};

use field::{Modulus, Residue};

// u = x + u0, v = v0.
#[derive(Clone, Copy, Debug, PartialEq, Eq)]
pub struct Linear {
    pub u0: Residue,
    pub v0: Residue,
}

// u = x² + u1 x + u0, v = v1 x + v0.
#[derive(Clone, Copy, Debug, PartialEq, Eq)]
pub struct Quadratic {
    pub u0: Residue,
    pub u1: Residue,
    pub v0: Residue,
    pub v1: Residue,
}

// u = x³ + u2 x² + u1 x + u0, v = v2 x² + v1 x + v0.
#[derive(Clone, Copy, Debug, PartialEq, Eq)]
pub struct Cubic {
    pub u0: Residue,
    pub u1: Residue,
    pub u2: Residue,
    pub v0: Residue,
    pub v1: Residue,
    pub v2: Residue,
}

// What sums and divisions by u make on the way: c0 + c1 x, and c0 + c1 x + c2 x².
#[derive(Clone, Copy, Debug, PartialEq, Eq)]
pub struct Duo {
    pub c0: Residue,
    pub c1: Residue,
}

#[derive(Clone, Copy, Debug, PartialEq, Eq)]
pub struct Trio {
    pub c0: Residue,
    pub c1: Residue,
    pub c2: Residue,
}

#[derive(Clone, Copy, Debug, PartialEq, Eq)]
pub enum Divisor {
    Neutral,
    One(Linear),
    Two(Quadratic),
    Three(Cubic),
}

// The opposite of a residue, ready to be held.
fn negate_settled(r: Residue, m: Modulus) -> Residue
    requires { Settled m r }
    ensures { Settles m result ((zmod m.p).neg (el m r)) }
{
    r.neg(m).settle(m)
}

impl Divisor {
    pub fn neutral() -> Divisor
        ensures { result ≡ Divisor.Neutral }
    {
        Divisor::Neutral
    }

    // The degree of u.
    pub fn weight(self) -> usize
        ensures { result ≡ weight_of self }
    {
        match self {
            Divisor::Neutral => 0,
            Divisor::One(_) => 1,
            Divisor::Two(_) => 2,
            Divisor::Three(_) => 3,
        }
    }

    // The coefficients in a row, those of u first, then those of v; what stands behind them isn't promised. Where this row and the weight
    // will do, nothing else need know the four cases. An array with the weight beside it, where a Vec would ask for memory.
    pub fn row(self) -> [Residue; 6]
        ensures { RowOf self result }
    {
        let z = Residue::zero();
        match self {
            Divisor::Neutral => [z; 6],
            Divisor::One(Linear { u0, v0 }) => [u0, v0, z, z, z, z],
            Divisor::Two(Quadratic { u0, u1, v0, v1 }) => [u0, u1, v0, v1, z, z],
            Divisor::Three(
                Cubic {
                    u0,
                    u1,
                    u2,
                    v0,
                    v1,
                    v2,
                },
            ) => [u0, u1, u2, v0, v1, v2],
        }
    }

    // The divisor of weight w whose coefficients are the first 2 w residues.
    pub fn of_row(w: usize, r: [Residue; 6]) -> Divisor
        requires { w ≤ 3 }
        ensures { (weight_of result ≡ w) × RowOf result r }
    {
        let [a, b, c, d, e, f] = r;
        match w {
            0 => Divisor::neutral(),
            1 => Divisor::One(Linear { u0: a, v0: b }),
            2 => Divisor::Two(Quadratic {
                u0: a,
                u1: b,
                v0: c,
                v1: d,
            }),
            _ => Divisor::Three(Cubic {
                u0: a,
                u1: b,
                u2: c,
                v0: d,
                v1: e,
                v2: f,
            }),
        }
    }

    // The same u, and -v.
    pub fn opposite(self, m: Modulus) -> Divisor
        requires { Held m self }
        ensures { Opposed m self result }
    {
        let w = self.weight();
        let mut r = self.row();
        for k in w..2 * w {
            r[k] = negate_settled(r[k], m);
        }
        Divisor::of_row(w, r)
    }
}
