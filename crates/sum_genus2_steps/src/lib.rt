// The steps of genus 2's explicit formulae, on residues: Lange's affine tables (source 001, 4.3.1 and 4.3.3, h = 0, any f4), with two misprints of 6' mended: it has
// s0·(u21 - u'0), not s0·(u21 + u'0), and s0·u20, not s0. Each function promises an equation of K[x]; (u, v) is the pair a, the other one is b.
#![tactic(auto)]

ghost use Rattle.field.specs.Residues.{Kept};
ghost use Rattle.divisor.specs.Divisors.{Held};
ghost use Rattle.sum_genus2_steps.specs.Steps.{KeptDuo, KeptSlope, ux, twice, Eased, Inverted, Apart, Gap, Square, Right, Times, Undoes, Slopes, Quotient, Rest, Line};

use divisor::{Divisor, Duo, Linear, Quadratic};
use field::{Modulus, Residue};

// i · h is r modulo u; e is i0 - u1 · i1.
#[derive(Clone, Copy)]
pub struct Bezout {
    pub i: Duo,
    pub e: Residue,
    pub r: Residue,
}

// w · (x + t), and wi = 1 / w.
#[derive(Clone, Copy)]
pub struct Slope {
    pub w: Residue,
    pub wi: Residue,
    pub t: Residue,
}

// i · u is r modulo the other u.
pub fn invert_u(a: Quadratic, b: Quadratic, m: Modulus) -> Bezout
    requires { Held m (Divisor.Two a) × Held m (Divisor.Two b) }
    ensures { Inverted m (ux m a) b result × Apart m a b result.i }
{
    let i1 = b.u1.sub(a.u1, m);
    let e = a.u0.sub(b.u0, m);
    let i0 = b.u1.mul(i1, m).add(e, m);
    let r = e.dot(i0, i1.sqr(m), b.u0, m).settle(m);
    let i = Duo { c0: i0, c1: i1 };
    Bezout { i: i, e: e, r: r }
}

// The other v, less v.
pub fn v_gap(a: Quadratic, b: Quadratic, m: Modulus) -> Duo
    requires { Held m (Divisor.Two a) × Held m (Divisor.Two b) }
    ensures { Gap m a b result }
{
    let c0 = b.v0.sub(a.v0, m);
    let c1 = b.v1.sub(a.v1, m);
    Duo { c0: c0, c1: c1 }
}

// c · i modulo the other u.
pub fn times(c: Duo, x: Bezout, b: Quadratic, m: Modulus) -> Duo
    requires { KeptDuo m c × (Eased m b x × Held m (Divisor.Two b)) }
    ensures { Times m c x.i b result }
{
    let k = c.c1.mul(x.i.c1, m);
    let s1 = c.c1.dot(x.e, c.c0, x.i.c1, m).settle(m);
    let s0 = c.c0.cross(x.i.c0, b.u0, k, m);
    Duo { c0: s0, c1: s1 }
}

// s / r, where i is the inverse of r · s1.
pub fn divide(r: Residue, s: Duo, i: Residue, m: Modulus) -> Slope
    requires { Kept m r × (KeptDuo m s × Undoes m r s i) }
    ensures { Slopes m r s result }
{
    let x = r.mul(i, m);
    let w = s.c1.sqr(m).mul(i, m);
    let wi = r.mul(x, m);
    let t = s.c0.mul(x, m);
    Slope { w: w, wi: wi, t: t }
}

// The new u: only its top coefficients are looked at, since it divides. z is what `chord` inverted with, so that t·(t - 2 z1) + z0 is at hand.
pub fn new_u(a: Quadratic, b: Quadratic, z: Duo, x: Slope, f4: Residue, m: Modulus) -> Duo
    requires { Held m (Divisor.Two a) × (Held m (Divisor.Two b) × (KeptDuo m z × (Apart m a b z × (KeptSlope m x × Kept m f4)))) }
    ensures { Quotient m a b x f4 result }
{
    let y = x.t.sub(z.c1, m);
    let w5 = x.wi.sqr(m);
    let n1 = x.t.add(y, m).sub(w5, m);
    let n0 = x.t.mul_diff(y, z.c1, m).add(z.c0, m).add(
        a.v1.dbl(m).dot(x.wi, a.u1.add(b.u1, m).sub(f4, m), w5, m),
        m,
    );
    Duo { c0: n0, c1: n1 }
}

// The new v, and all of it settled.
pub fn new_v(a: Quadratic, x: Slope, n: Duo, m: Modulus) -> Quadratic
    requires { Held m (Divisor.Two a) × (KeptSlope m x × KeptDuo m n) }
    ensures { Rest m a x n result }
{
    let k = a.u1.add(x.t, m).sub(n.c1, m);
    let v1 = x
        .w
        .mul_diff(n.c1.cross(k, a.u1, x.t, m).add(n.c0, m), a.u0, m)
        .sub(a.v1, m)
        .settle(m);
    let v0 = x
        .w
        .mul(n.c0.cross(k, a.u0, x.t, m), m)
        .sub(a.v0, m)
        .settle(m);
    let u0 = n.c0.settle(m);
    let u1 = n.c1.settle(m);
    Quadratic {
        u0: u0,
        u1: u1,
        v0: v0,
        v1: v1,
    }
}

// The slope is a constant s: 5' and 6'.
pub fn line(a: Quadratic, b: Quadratic, s: Residue, f4: Residue, m: Modulus) -> Linear
    requires { Held m (Divisor.Two a) × (Held m (Divisor.Two b) × (Kept m s × Kept m f4)) }
    ensures { Line m a b s f4 result }
{
    let u0 = f4.sub(a.u1, m).sub(b.u1, m).sub(s.sqr(m), m).settle(m);
    let k = s.mul_diff(a.u1, u0, m).add(a.v1, m);
    let v0 = u0.cross(k, s, a.u0, m).sub(a.v0, m).settle(m);
    Linear { u0: u0, v0: v0 }
}

// i · 2 v is r modulo u: i inverts v alone, up to r / 2, so that y = v1² serves here and in `cofactor_mod_u`.
pub fn invert_twice_v(a: Quadratic, y: Residue, m: Modulus) -> Bezout
    requires { Held m (Divisor.Two a) × Square m a y }
    ensures { Inverted m (twice m a) a result }
{
    let i1 = a.v1.neg(m);
    let i0 = a.u1.mul(i1, m).add(a.v0, m);
    let r = a.v0.dot(i0, a.u0, y, m).dbl(m).settle(m);
    let e = a.v0;
    let i = Duo { c0: i0, c1: i1 };
    Bezout { i: i, e: e, r: r }
}

// (f - v²) / u modulo u.
pub fn cofactor_mod_u(
    a: Quadratic,
    y: Residue,
    f2: Residue,
    f3: Residue,
    f4: Residue,
    m: Modulus,
) -> Duo
    requires { Held m (Divisor.Two a) × (Square m a y × (Kept m f2 × (Kept m f3 × Kept m f4))) }
    ensures { Right m a f2 f3 f4 result }
{
    let k = a.u1.sub(f4, m);
    let e = a.u1.mul(k, m);
    let w4 = a.u0.dbl(m);
    let d = f3.sub(w4, m).add(e, m);
    let k1 = d.add(a.u1.mul_sum(a.u1, k, m), m);
    let k0 = f2.add(w4.cross(k, a.u1, d, m), m).sub(y, m);
    Duo { c0: k0, c1: k1 }
}

// The new u of a pair with itself.
pub fn new_u_twice(a: Quadratic, x: Slope, f4: Residue, m: Modulus) -> Duo
    requires { Held m (Divisor.Two a) × (KeptSlope m x × Kept m f4) }
    ensures { Quotient m a a x f4 result }
{
    let w5 = x.wi.sqr(m);
    let n1 = x.t.dbl(m).sub(w5, m);
    let n0 = x
        .t
        .dot(x.t, a.v1.dbl(m), x.wi, m)
        .add(w5.mul_diff(a.u1.dbl(m), f4, m), m);
    Duo { c0: n0, c1: n1 }
}
