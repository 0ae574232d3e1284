// Powers modulo a monic cubic (W-213), on three coefficients: products and powers leave a rest, and the promise is an equation of K[x].
ghost use Rattle.std.specs.Prelude.{◌<◌};
ghost use Rattle.algebra.proofs.Ring.Power.{power};
ghost use Rattle.poly_root.specs.rests.Rests.{P, rest, Leaves, ToMultiply, ToRaise};

use field::{Modulus, Residue};

// x^3 + u2 x^2 + u1 x + u0.
#[derive(Clone, Copy, Debug, PartialEq, Eq)]
pub struct MonicCubic {
    pub u0: Residue,
    pub u1: Residue,
    pub u2: Residue,
}

// c2 x^2 + c1 x + c0.
#[derive(Clone, Copy, Debug, PartialEq, Eq)]
pub struct Rest {
    pub c0: Residue,
    pub c1: Residue,
    pub c2: Residue,
}

impl Rest {
    // The product modulo u: x4 and x3 are the quotient's coefficients.
    pub fn times(self, b: Rest, u: MonicCubic, m: Modulus) -> Rest
        requires { ToMultiply m u self b }
        ensures { Leaves m u ((P m).mul (rest m self) (rest m b)) result }
    {
        let x4 = self.c2.mul(b.c2, m);
        let x3 = self.c1.dot(b.c2, self.c2, b.c1, m).sub(x4.mul(u.u2, m), m);
        let s2 = self
            .c0
            .dot(b.c2, self.c2, b.c0, m)
            .add(self.c1.mul(b.c1, m), m);
        let c2 = s2.sub(x4.dot(u.u1, x3, u.u2, m), m);
        let s1 = self.c0.dot(b.c1, self.c1, b.c0, m);
        let c1 = s1.sub(x4.dot(u.u0, x3, u.u1, m), m);
        let c0 = self.c0.cross(b.c0, x3, u.u0, m);
        Rest {
            c0: c0,
            c1: c1,
            c2: c2,
        }
    }
}

// a to the n modulo u.
pub fn raise(a: Rest, n: u64, u: MonicCubic, m: Modulus) -> Rest
    requires { ToRaise m u a }
    ensures { Leaves m u (power (P m) (rest m a) n) result }
{
    let one = Residue::one(m);
    let zero = Residue::zero();
    let mut x = Rest {
        c0: one,
        c1: zero,
        c2: zero,
    };
    let mut y = a;
    let mut k = n;
    // The exponent is halved, so that no range counts the turns.
    while 0 < k {
        if k % 2 == 1 {
            x = x.times(y, u, m);
            k -= 1;
            continue;
        }
        y = y.times(y, u, m);
        k /= 2;
    }
    x
}
