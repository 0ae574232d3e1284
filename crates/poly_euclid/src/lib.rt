// Euclid. The greatest common divisor of two polynomials, monic or zero, alone and with its cofactors, and the square-free test on top
// of it.
#![tactic(auto)]

ghost use Rattle.std.specs.Prelude.{◌<◌};
ghost use Rattle.algebra.proofs.Poly.Common.{SharesNoFactor};
ghost use Rattle.algebra.proofs.Poly.Derivative.{der_p};
ghost use Rattle.field.specs.Primes.{Decides};
ghost use Rattle.poly.specs.Polys.{K, pol, Ok};
ghost use Rattle.poly.specs.Operations.{Divided};
ghost use Rattle.poly_euclid.specs.Euclid.{ToDivideBy, OkL, OkH, Lessens, Less, Scaled, ScaledH, Shared, Gcd, Xgcd, XgcdRight};

use field::PrimeModulus;
use poly::{DivRem, Poly};

// A line (r, s, t) of a and b is r = s * a + t * b.
#[derive(Clone, Copy)]
pub struct Line {
    pub r: Poly,
    pub s: Poly,
    pub t: Poly,
}

// A line whose s nobody asks for: to find it would cost two products a turn.
#[derive(Clone, Copy)]
pub struct RightLine {
    pub r: Poly,
    pub t: Poly,
}

// Quotient and remainder by any u but zero: by u made monic, and only the quotient is scaled back.
fn divide(a: Poly, u: Poly, prime: PrimeModulus) -> DivRem
    requires { ToDivideBy prime.m a u }
    ensures { Divided prime.m a u result.quotient result.remainder }
{
    let m = prime.m;
    let x = u.lead_inverse(prime);
    let d = a.div_rem(u.scale(x, m), m);
    let q = d.quotient;
    let q1 = q.scale(x, m);
    let e = d.remainder;
    DivRem {
        quotient: q1,
        remainder: e,
    }
}

// Euclid's last remainder: a constant ends it, with no division by that. Nothing is made monic.
fn last_remainder(a: Poly, b: Poly, prime: PrimeModulus) -> Poly
    requires { Ok prime.m a × Ok prime.m b }
    ensures { Shared prime.m a b result }
{
    let mut x = a;
    let mut y = b;
    let mut n = b.n;
    // No range: the remainders say how many turns there are.
    while 1 < n {
        let d = divide(x, y, prime);
        let e = d.remainder;
        x = y;
        y = e;
        n = e.n;
    }
    if n == 0 {
        return x;
    }
    y
}

pub fn gcd(a: Poly, b: Poly, prime: PrimeModulus) -> Poly
    requires { Ok prime.m a × Ok prime.m b }
    ensures { Gcd prime.m a b result }
{
    last_remainder(a, b, prime).monic(prime)
}

impl Line {
    // This line less q times u, where that leaves e.
    fn minus_multiple(self, q: Poly, u: Line, e: Poly, prime: PrimeModulus) -> Line
        requires { Lessens prime.m self q u e }
        ensures { Less prime.m self q u e result }
    {
        let m = prime.m;
        let s0 = self.s;
        let t0 = self.t;
        let s = s0.sub(q.mul(u.s, prime), m);
        let t = t0.sub(q.mul(u.t, prime), m);
        Line { r: e, s: s, t: t }
    }

    // The line with r monic; as it is where r is zero.
    fn monic(self, prime: PrimeModulus) -> Line
        requires { OkL prime.m self }
        ensures { Scaled prime.m self result }
    {
        let m = prime.m;
        let r = self.r;
        if r.n == 0 {
            return self;
        }
        let s = self.s;
        let t = self.t;
        let x = r.lead_inverse(prime);
        let r1 = r.scale(x, m);
        let s1 = s.scale(x, m);
        let t1 = t.scale(x, m);
        Line {
            r: r1,
            s: s1,
            t: t1,
        }
    }
}

// The gcd r with its cofactors: r = s * a + t * b. A remainder that is a constant ends it: made monic it is 1, and no step more is needed.
pub fn xgcd(a: Poly, b: Poly, prime: PrimeModulus) -> Line
    requires { Ok prime.m a × Ok prime.m b }
    ensures { Xgcd prime.m a b result }
{
    let m = prime.m;
    let one = Poly::one(m);
    let zero = Poly::zero(m);
    let mut x = Line {
        r: a,
        s: one,
        t: zero,
    };
    let mut y = Line {
        r: b,
        s: zero,
        t: one,
    };
    let mut n = b.n;
    // No range: the remainders say how many turns there are.
    while 1 < n {
        let r = x.r;
        let d = divide(r, y.r, prime);
        let q = d.quotient;
        let e = d.remainder;
        let z = x.minus_multiple(q, y, e, prime);
        x = y;
        y = z;
        n = e.n;
    }
    if n == 0 {
        return x.monic(prime);
    }
    y.monic(prime)
}

impl RightLine {
    // The same with r monic; as it is where r is zero.
    fn monic(self, prime: PrimeModulus) -> RightLine
        requires { OkH prime.m self }
        ensures { ScaledH prime.m self result }
    {
        let m = prime.m;
        let g = self.r;
        if g.n == 0 {
            return self;
        }
        let t = self.t;
        let x = g.lead_inverse(prime);
        let r1 = g.scale(x, m);
        let t1 = t.scale(x, m);
        RightLine { r: r1, t: t1 }
    }
}

// The gcd r with the cofactor of b alone: r = s * a + t * b for some s. It goes as xgcd does.
pub fn xgcd_right(a: Poly, b: Poly, prime: PrimeModulus) -> RightLine
    requires { Ok prime.m a × Ok prime.m b }
    ensures { XgcdRight prime.m a b result }
{
    let m = prime.m;
    let one = Poly::one(m);
    let zero = Poly::zero(m);
    let mut x = RightLine { r: a, t: zero };
    let mut y = RightLine { r: b, t: one };
    let mut size = b.n;
    // No range: the remainders say how many turns there are.
    while 1 < size {
        let r = x.r;
        let t = x.t;
        let d = divide(r, y.r, prime);
        let q = d.quotient;
        let e = d.remainder;
        let w = t.sub(q.mul(y.t, prime), m);
        x = y;
        y = RightLine { r: e, t: w };
        size = e.n;
    }
    if size == 0 {
        return x.monic(prime);
    }
    y.monic(prime)
}

// Whether f and its derivative share no factor of degree 1 or more.
pub fn is_square_free(f: Poly, prime: PrimeModulus) -> bool
    requires { Ok prime.m f }
    ensures { Decides result (SharesNoFactor (K prime.m) (pol prime.m f) (der_p (K prime.m) (pol prime.m f))) }
{
    let m = prime.m;
    let g = last_remainder(f, f.derivative(m), prime);
    if g.n == 1 {
        return true;
    }
    false
}
