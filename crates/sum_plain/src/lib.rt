// The plain sum: a divisor's polynomials, Cantor's composition and reduction on them, and the divisor of what comes out.
#![tactic(auto)]

ghost use Rattle.algebra.proofs.Zmod.Zmod.{zmod};
ghost use Rattle.algebra.proofs.Poly.Poly.{coef};
ghost use Rattle.rules.specs.Sum.{sum, double};
ghost use Rattle.field.specs.Residues.{Settles};
ghost use Rattle.poly.specs.Polys.{pol, Ok};
ghost use Rattle.divisor.specs.Divisors.{pair, Held};
ghost use Rattle.curve.specs.Curves.{curve_of, Holds, Gives};
ghost use Rattle.sum_plain.specs.Pairs.{AsPair, ToDivisor, FromPair};

use curve::Curve;
use divisor::{Cubic, Divisor, Linear, Quadratic};
use field::{Modulus, Residue};
use poly::Poly;
use sum_cantor::composing::Mumford;

fn of_linear(d: Linear, m: Modulus) -> Mumford
    requires { Held m (Divisor.One d) }
    ensures { AsPair m (Divisor.One d) result }
{
    let u0 = d.u0;
    let v0 = d.v0;
    let u = curve::polynomials::line(u0, Residue::one(m), m);
    let v = Poly::constant(v0, m);
    Mumford { u: u, v: v }
}

fn of_quadratic(d: Quadratic, m: Modulus) -> Mumford
    requires { Held m (Divisor.Two d) }
    ensures { AsPair m (Divisor.Two d) result }
{
    let u0 = d.u0;
    let u1 = d.u1;
    let v0 = d.v0;
    let v1 = d.v1;
    let u = curve::polynomials::parabola(u0, u1, Residue::one(m), m);
    let v = curve::polynomials::line(v0, v1, m);
    Mumford { u: u, v: v }
}

fn of_cubic(d: Cubic, m: Modulus) -> Mumford
    requires { Held m (Divisor.Three d) }
    ensures { AsPair m (Divisor.Three d) result }
{
    let u0 = d.u0;
    let u1 = d.u1;
    let u2 = d.u2;
    let v0 = d.v0;
    let v1 = d.v1;
    let v2 = d.v2;
    let u = curve::polynomials::parabola(u0, u1, u2, m).put(3, Residue::one(m), m);
    let v = curve::polynomials::parabola(v0, v1, v2, m);
    Mumford { u: u, v: v }
}

// The divisor's polynomials.
fn pair_of(d: Divisor, m: Modulus) -> Mumford
    requires { Held m d }
    ensures { AsPair m d result }
{
    match d {
        Divisor::Neutral => {
            let u = Poly::one(m);
            let v = Poly::zero(m);
            Mumford { u: u, v: v }
        }
        Divisor::One(x) => of_linear(x, m),
        Divisor::Two(x) => of_quadratic(x, m),
        Divisor::Three(x) => of_cubic(x, m),
    }
}

fn coefficient(x: Poly, k: usize, m: Modulus) -> Residue
    requires { Ok m x }
    ensures { Settles m result (coef (zmod m.p) (pol m x) k) }
{
    x.get(k).settle(m)
}

// And back.
fn divisor_of(x: Mumford, m: Modulus) -> Divisor
    requires { ToDivisor m x }
    ensures { FromPair m x result }
{
    let u = x.u;
    let v = x.v;
    let n = u.n;
    if n == 1 {
        return Divisor::neutral();
    }
    let u0 = coefficient(u, 0, m);
    let v0 = coefficient(v, 0, m);
    if n == 2 {
        return Divisor::One(Linear { u0: u0, v0: v0 });
    }
    let u1 = coefficient(u, 1, m);
    let v1 = coefficient(v, 1, m);
    if n == 3 {
        return Divisor::Two(Quadratic {
            u0: u0,
            u1: u1,
            v0: v0,
            v1: v1,
        });
    }
    let u2 = coefficient(u, 2, m);
    let v2 = coefficient(v, 2, m);
    Divisor::Three(Cubic {
        u0: u0,
        u1: u1,
        u2: u2,
        v0: v0,
        v1: v1,
        v2: v2,
    })
}

pub fn sum(c: Curve, a: Divisor, b: Divisor) -> Divisor
    requires { Holds c a × Holds c b }
    ensures { Gives c result (sum (curve_of c) (pair c.prime.m a) (pair c.prime.m b)) }
{
    let m = c.prime.m;
    let f = curve::polynomials::f_of(c.equation());
    let x = pair_of(a, m);
    let y = pair_of(b, m);
    divisor_of(sum_cantor::sum(f, c.g, x, y, c.prime), m)
}

pub fn double(c: Curve, a: Divisor) -> Divisor
    requires { Holds c a }
    ensures { Gives c result (double (curve_of c) (pair c.prime.m a)) }
{
    let m = c.prime.m;
    let f = curve::polynomials::f_of(c.equation());
    let x = pair_of(a, m);
    divisor_of(sum_cantor::double(f, c.g, x, c.prime), m)
}
