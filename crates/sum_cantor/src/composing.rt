// Cantor's composition, on pairs of polynomials (u, v) with u monic, v shorter than u, and u dividing f - v * v. Contracts promise the equations that the theorem of
// `rules` takes; code need not follow the rules' own Euclid step by step.
ghost use Rattle.sum_cantor.specs.composing.Cofactors.{ToCofactor, Cofactor};
ghost use Rattle.sum_cantor.specs.composing.Composing.{ToSlope, Slope, ToLift, Lift, ToComposeBy, Composed, ToCompose};
ghost use Rattle.poly.specs.Operations.{ToQuotient, Quotient};

use crate::common::Bezout3;
use field::{Modulus, PrimeModulus};
use poly::Poly;

#[derive(Clone, Copy)]
pub struct Mumford {
    pub u: Poly,
    pub v: Poly,
}

// a / d, where d divides a; most often d is 1.
fn divide_out(a: Poly, d: Poly, m: Modulus) -> Poly
    requires { ToQuotient m a d }
    ensures { Quotient m a d result }
{
    if d.n == 1 {
        return a;
    }
    a.quotient(d, m)
}

// (f - v * v) / u.
pub fn cofactor(f: Poly, x: Mumford, prime: PrimeModulus) -> Poly
    requires { ToCofactor prime.m f x }
    ensures { Cofactor prime.m f x result }
{
    let m = prime.m;
    let v = x.v;
    f.sub(v.mul(v, prime), m).quotient(x.u, m)
}

// s2 * (v1 - v2) + s3 * w2, where w2 = (f - v2 * v2) / u2.
fn slope(f: Poly, v1: Poly, b: Mumford, t: Bezout3, prime: PrimeModulus) -> Poly
    requires { ToSlope prime.m f v1 b t }
    ensures { Slope prime.m f v1 b t result }
{
    let m = prime.m;
    let s2 = t.s2;
    let s3 = t.s3;
    let x = s2.mul(v1.sub(b.v, m), prime);
    if s3.n == 0 {
        return x;
    }
    x.add(s3.mul(cofactor(f, b, prime), prime), m)
}

// v2 + e2 * (k modulo e1): the composed v, but for a multiple of e1 * e2.
fn lift(v2: Poly, e1: Poly, e2: Poly, k: Poly, prime: PrimeModulus) -> Poly
    requires { ToLift prime.m v2 e1 e2 k }
    ensures { Lift prime.m v2 e1 e2 k result }
{
    let m = prime.m;
    let d = k.div_rem(e1, m);
    let r = d.remainder;
    v2.add(e2.mul(r, prime), m)
}

// The composition, its greatest common divisor given.
fn compose_by(f: Poly, a: Mumford, b: Mumford, t: Bezout3, prime: PrimeModulus) -> Mumford
    requires { ToComposeBy prime.m f a b t }
    ensures { Composed prime.m f a b result }
{
    let m = prime.m;
    let e1 = divide_out(a.u, t.d, m);
    let e2 = divide_out(b.u, t.d, m);
    let k = slope(f, a.v, b, t, prime);
    let v = lift(b.v, e1, e2, k, prime);
    let u = e1.mul(e2, prime);
    let d = v.div_rem(u, m);
    let r = d.remainder;
    Mumford { u: u, v: r }
}

pub fn compose(f: Poly, a: Mumford, b: Mumford, prime: PrimeModulus) -> Mumford
    requires { ToCompose prime.m f a b }
    ensures { Composed prime.m f a b result }
{
    let m = prime.m;
    let v1 = a.v;
    let w = v1.add(b.v, m);
    compose_by(f, a, b, crate::common::gcd3(a.u, b.u, w, prime), prime)
}

pub fn compose_twice(f: Poly, a: Mumford, prime: PrimeModulus) -> Mumford
    requires { ToCompose prime.m f a a }
    ensures { Composed prime.m f a a result }
{
    let m = prime.m;
    let v = a.v;
    let w = v.add(v, m);
    compose_by(f, a, a, crate::common::gcd3_twice(a.u, w, prime), prime)
}
