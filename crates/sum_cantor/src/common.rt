// The greatest common divisor that a composition takes out: of u1, u2 and v1 + v2, with its cofactors.
ghost use Rattle.sum_cantor.specs.common.Common.{ToCommon, Common};

use field::PrimeModulus;
use poly::Poly;
use poly_euclid::{xgcd, xgcd_right};

// d = s1 * u1 + s2 * u2 + s3 * (v1 + v2) for some s1, which nothing needs.
#[derive(Clone, Copy)]
pub struct Bezout3 {
    pub d: Poly,
    pub s2: Poly,
    pub s3: Poly,
}

// The greatest common divisor of u1, u2 and v1 + v2. Where that of u1 and u2 is 1, v1 + v2 isn't looked at.
pub fn gcd3(u1: Poly, u2: Poly, w: Poly, prime: PrimeModulus) -> Bezout3
    requires { ToCommon prime.m u1 u2 w }
    ensures { Common prime.m u1 u2 w result }
{
    let m = prime.m;
    let e = xgcd_right(u1, u2, prime);
    let first = e.r;
    let t = e.t;
    if first.n == 1 {
        let none = Poly::zero(m);
        return Bezout3 {
            d: first,
            s2: t,
            s3: none,
        };
    }
    let h = xgcd(first, w, prime);
    let k = h.s;
    let s2 = k.mul(t, prime);
    let d = h.r;
    let s3 = h.t;
    Bezout3 {
        d: d,
        s2: s2,
        s3: s3,
    }
}

// Where both pairs are one, u1 is u2 and two ways are enough.
pub fn gcd3_twice(u: Poly, w: Poly, prime: PrimeModulus) -> Bezout3
    requires { ToCommon prime.m u u w }
    ensures { Common prime.m u u w result }
{
    let m = prime.m;
    let h = xgcd_right(u, w, prime);
    let d = h.r;
    let s3 = h.t;
    let none = Poly::zero(m);
    Bezout3 {
        d: d,
        s2: none,
        s3: s3,
    }
}
