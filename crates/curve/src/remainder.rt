// What f - v * v leaves when it is divided by u, for each weight, coefficient by coefficient from the top.
ghost use Rattle.std.specs.Prelude.{◌≡◌, [], ◌∷◌};
ghost use Rattle.divisor.specs.Divisors.{Held};
ghost use Rattle.curve.specs.division.Turns.{two, three};
ghost use Rattle.curve.specs.Rests.{TopOne, TopTwo, Rests};
ghost use Rattle.curve.specs.Quotient.{Quotient};

use crate::{Curve, division};
use divisor::{Cubic, Divisor, Duo, Linear, Quadratic, Trio};
use field::Residue;

// What the coefficients above f4 leave: 1 alone, or those of genus 3 before it.
fn top_one(c: Curve, d: Linear) -> Residue
    requires { Held c.prime.m (Divisor.One d) }
    ensures { TopOne c d result }
{
    let m = c.prime.m;
    let g = c.g;
    let a = Residue::one(m);
    if g == 2 {
        return a;
    }
    let b = division::turn_one(a, c.f6, d, m);
    division::turn_one(b, c.f5, d, m)
}

// The same from f4 on.
fn top_two(c: Curve, d: Quadratic) -> Duo
    requires { Held c.prime.m (Divisor.Two d) }
    ensures { TopTwo c d result }
{
    let m = c.prime.m;
    let g = c.g;
    let o = Residue::one(m);
    if g == 2 {
        let f4 = c.f4;
        return Duo { c0: f4, c1: o };
    }
    let f6 = c.f6;
    let a = Duo { c0: f6, c1: o };
    let b = division::turn_two(a, c.f5, d, m);
    division::turn_two(b, c.f4, d, m)
}

// What f - v * v leaves when it is divided by u, for each weight.
pub fn rest_one(c: Curve, d: Linear) -> Residue
    requires { Held c.prime.m (Divisor.One d) }
    ensures { Rests c (Divisor.One d) (result ∷ []) }
{
    let m = c.prime.m;
    let v0 = d.v0;
    let a = top_one(c, d);
    let a4 = division::turn_one(a, c.f4, d, m);
    let a3 = division::turn_one(a4, c.f3, d, m);
    let a2 = division::turn_one(a3, c.f2, d, m);
    let a1 = division::turn_one(a2, c.f1, d, m);
    let h0 = division::less(c.f0, v0, v0, m);
    division::turn_one(a1, h0, d, m)
}

fn turns_two(c: Curve, d: Quadratic) -> Duo
    requires { Held c.prime.m (Divisor.Two d) }
    ensures { Rests c (Divisor.Two d) (two result) }
{
    let m = c.prime.m;
    let v0 = d.v0;
    let v1 = d.v1;
    let a = top_two(c, d);
    let a3 = division::turn_two(a, c.f3, d, m);
    let h2 = division::less(c.f2, v1, v1, m);
    let a2 = division::turn_two(a3, h2, d, m);
    let h1 = division::less(c.f1, v0.dbl(m), v1, m);
    let a1 = division::turn_two(a2, h1, d, m);
    let h0 = division::less(c.f0, v0, v0, m);
    division::turn_two(a1, h0, d, m)
}

// In genus 2 by the quotient, whose coefficients are q2, q1 and q0 below its leading 1: two products stand under one reduction.
fn quotient_two(c: Curve, d: Quadratic) -> Duo
    requires { (c.g ≡ 2) × Held c.prime.m (Divisor.Two d) }
    ensures { Rests c (Divisor.Two d) (two result) }
{
    let m = c.prime.m;
    let w0 = d.v0.dbl(m);
    let q2 = c.f4.sub(d.u1, m);
    let q1 = c.f3.sub(d.u0, m).sub(q2.mul(d.u1, m), m);
    let q0 = c
        .f2
        .sub(d.v1.dot(d.v1, q2, d.u0, m), m)
        .sub(q1.mul(d.u1, m), m);
    let r1 = c
        .f1
        .sub(w0.dot(d.v1, q1, d.u0, m), m)
        .sub(q0.mul(d.u1, m), m);
    let r0 = c.f0.sub(d.v0.dot(d.v0, q0, d.u0, m), m);
    Duo { c0: r0, c1: r1 }
}

pub fn rest_two(c: Curve, d: Quadratic) -> Duo
    requires { Held c.prime.m (Divisor.Two d) }
    ensures { Rests c (Divisor.Two d) (two result) }
{
    let g = c.g;
    if g == 2 {
        return quotient_two(c, d);
    }
    turns_two(c, d)
}

// In genus 3 the quotient's coefficients below its leading 1 and q3: q2, q1 and q0.
fn quotient_three(c: Curve, d: Cubic) -> Trio
    requires { (c.g ≡ 3) × Held c.prime.m (Divisor.Three d) }
    ensures { Quotient c d result }
{
    let m = c.prime.m;
    let w2 = d.v2.dbl(m);
    let q3 = c.f6.sub(d.u2, m);
    let q2 = c.f5.sub(d.u1, m).sub(q3.mul(d.u2, m), m);
    let q1 = c
        .f4
        .sub(d.u0, m)
        .sub(d.v2.dot(d.v2, q3, d.u1, m), m)
        .sub(q2.mul(d.u2, m), m);
    let q0 = c
        .f3
        .sub(d.v1.dot(w2, q3, d.u0, m), m)
        .sub(q2.dot(d.u1, q1, d.u2, m), m);
    Trio {
        c0: q0,
        c1: q1,
        c2: q2,
    }
}

pub fn rest_three(c: Curve, d: Cubic) -> Trio
    requires { (c.g ≡ 3) × Held c.prime.m (Divisor.Three d) }
    ensures { Rests c (Divisor.Three d) (three result) }
{
    let m = c.prime.m;
    let q = quotient_three(c, d);
    let w0 = d.v0.dbl(m);
    let w2 = d.v2.dbl(m);
    let r2 = c
        .f2
        .sub(d.v0.dot(w2, d.v1, d.v1, m), m)
        .sub(q.c2.dot(d.u0, q.c1, d.u1, m), m)
        .sub(q.c0.mul(d.u2, m), m);
    let r1 = c
        .f1
        .sub(w0.dot(d.v1, q.c1, d.u0, m), m)
        .sub(q.c0.mul(d.u1, m), m);
    let r0 = c.f0.sub(d.v0.dot(d.v0, q.c0, d.u0, m), m);
    Trio {
        c0: r0,
        c1: r1,
        c2: r2,
    }
}
