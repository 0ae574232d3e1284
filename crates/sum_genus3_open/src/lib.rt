// Genus 3 by formula, before the division: r and s', whose quotient s'/r is the slope by which two pairs compose. Steps 1 to 4 of source 004's table 1
// (addition) and 1 to 5 of its table 2 (doubling), on residues: no polynomial is held as an array. Each step promises an
// equation of K[x]. (u, v) is the pair a, the base; b is the other one.
// The letters t, i, r, k (table 2: z) and s' are the tables'. Products stand by twos under one reduction, schoolbook and not Toom. i isn't multiplied out:
// with u of b it is e2 (x² + u2 x + u1) + e1 (x + u2) + e0 (table 1: i2, -t10, -t9; table 2: i2, t7, t6), which makes c · i modulo u cheaper.
// The tables have f_6 = 0; here it is any. Only a double looks at it before the division, where (f - v²) / u is (x + f_6 - 2 u2) · u and a rest.
#![tactic(auto)]

ghost use Rattle.field.specs.Residues.{Kept};
ghost use Rattle.divisor.specs.Divisors.{Held};
ghost use Rattle.sum_genus3_open.specs.Opens.{KeptTrio, Inner, u_of, twice, ProductV, Inverts, Gap, Right1, Right0, Right, Times, Opens, OpensTwice};

use divisor::{Cubic, Divisor, Trio};
use field::{Modulus, PrimeModulus, Residue};

// i and r; i0 is i at 0.
#[derive(Clone, Copy)]
pub struct Bezout {
    pub e0: Residue,
    pub e1: Residue,
    pub e2: Residue,
    pub i0: Residue,
    pub r: Residue,
}

// r and s'.
#[derive(Clone, Copy)]
pub struct Opened {
    pub r: Residue,
    pub s: Trio,
}

// i · u is r modulo the other u.
fn invert_u(a: Cubic, b: Cubic, prime: PrimeModulus) -> Bezout
    requires { Held prime.m (Divisor.Three a) × Held prime.m (Divisor.Three b) }
    ensures { Inverts prime.m (u_of prime.m a) b result }
{
    let m = prime.m;
    let t1 = a.u1.cross(b.u0, a.u0, b.u1, m);
    let t2 = a.u2.cross(b.u0, a.u0, b.u2, m);
    let t3 = b.u0.sub(a.u0, m);
    let t4 = b.u1.sub(a.u1, m);
    let t5 = b.u2.sub(a.u2, m);
    let t8 = a.u2.cross(b.u1, a.u1, b.u2, m).add(t3, m);
    let e2 = t5.cross(t8, t4, t4, m);
    let e1 = t3.cross(t4, t2, t5, m);
    let e0 = t1.cross(t5, t3, t3, m);
    let i0 = b.u1.dot(e2, b.u2, e1, m).add(e0, m);
    let r = b.u0.cross(t4.dot(e2, t5, e1, m), t3, i0, m).settle(m);
    Bezout {
        e0: e0,
        e1: e1,
        e2: e2,
        i0: i0,
        r: r,
    }
}

// The other v, less v.
fn v_gap(a: Cubic, b: Cubic, m: Modulus) -> Trio
    requires { Held m (Divisor.Three a) × Held m (Divisor.Three b) }
    ensures { Gap m a b result }
{
    let c0 = b.v0.sub(a.v0, m);
    let c1 = b.v1.sub(a.v1, m);
    let c2 = b.v2.sub(a.v2, m);
    Trio {
        c0: c0,
        c1: c1,
        c2: c2,
    }
}

// c · i modulo the other u. Only its top is brought below p: that alone is tested for 0.
fn times(c: Trio, x: Bezout, b: Cubic, m: Modulus) -> Trio
    requires { KeptTrio m c × (Inner m b x × Held m (Divisor.Three b)) }
    ensures { Times m c x b result }
{
    let p = x.e2.dot(c.c0, x.e1, c.c1, m);
    let q = x.e2.dot(c.c1, x.e1, c.c2, m);
    let d = b.u0.dot(x.e2, b.u1, x.e1, m);
    let s2 = p.add(x.e0.mul(c.c2, m), m).settle(m);
    let s1 = b
        .u2
        .dot(p, x.e1, c.c0, m)
        .add(x.e0.cross(c.c1, c.c2, d, m), m);
    let s0 = c.c0.cross(x.i0, b.u0, q, m);
    Trio {
        c0: s0,
        c1: s1,
        c2: s2,
    }
}

// r of i and 2v: twice what i · v leaves modulo u at 0.
fn product_v(a: Cubic, e1: Residue, e2: Residue, i0: Residue, m: Modulus) -> Residue
    requires { Held m (Divisor.Three a) × (Kept m e1 × (Kept m e2 × Kept m i0)) }
    ensures { ProductV m a e1 e2 i0 result }
{
    let k = a.v0.cross(i0, a.u0, e2.dot(a.v1, e1, a.v2, m), m);
    k.dbl(m).settle(m)
}

// i · 2v is r modulo u.
fn invert_twice_v(a: Cubic, prime: PrimeModulus) -> Bezout
    requires { Held prime.m (Divisor.Three a) }
    ensures { Inverts prime.m (twice prime.m a) a result }
{
    let m = prime.m;
    let t1 = a.u1.cross(a.v0, a.u0, a.v1, m);
    let t2 = a.u2.cross(a.v0, a.u0, a.v2, m);
    let t5 = a.u2.cross(a.v1, a.u1, a.v2, m).add(a.v0, m);
    let e2 = a.v1.cross(a.v1, a.v2, t5, m);
    let e1 = a.v2.cross(t2, a.v1, a.v0, m);
    let e0 = a.v0.cross(a.v0, a.v2, t1, m);
    let i0 = a.u1.dot(e2, a.u2, e1, m).add(e0, m);
    let r = product_v(a, e1, e2, i0, m);
    Bezout {
        e0: e0,
        e1: e1,
        e2: e2,
        i0: i0,
        r: r,
    }
}

// The cofactor's coefficient 1, from t1 = 2 u0, t2 = 2 u1 and t5, what its coefficient 2 is made of.
fn cofactor_1(
    a: Cubic,
    t1: Residue,
    t2: Residue,
    t5: Residue,
    f4: Residue,
    f6: Residue,
    m: Modulus,
) -> Residue
    requires { Held m (Divisor.Three a) × (Kept m t1 × (Kept m t2 × (Kept m t5 × (Kept m f4 × Kept m f6)))) }
    ensures { Right1 m a t1 t2 t5 f4 f6 result }
{
    let t4 = f4.sub(t1.add(a.v2.sqr(m), m), m);
    a.u2.cross(t2.sub(t5, m), t2, f6, m).add(t4, m)
}

// Its coefficient 0, from k1 and t3 = u2².
fn cofactor_0(
    a: Cubic,
    t1: Residue,
    t3: Residue,
    k1: Residue,
    f3: Residue,
    f5: Residue,
    f6: Residue,
    m: Modulus,
) -> Residue
    requires { Held m (Divisor.Three a) × (Kept m t1 × (Kept m t3 × (Kept m k1 × (Kept m f3 × (Kept m f5 × Kept m f6))))) }
    ensures { Right0 m a t1 t3 k1 f3 f5 f6 result }
{
    a.u2.dot(t1.sub(k1, m), a.u1, t3.add(a.u1, m).sub(f5, m), m)
        .add(f3, m)
        .sub(a.v2.dbl(m).dot(a.v1, t1, f6, m), m)
}

// (f - v²) / u modulo u: f0, f1, f2 do not enter.
fn cofactor_mod_u(a: Cubic, f3: Residue, f4: Residue, f5: Residue, f6: Residue, m: Modulus) -> Trio
    requires { Held m (Divisor.Three a) × (Kept m f3 × (Kept m f4 × (Kept m f5 × Kept m f6))) }
    ensures { Right m a f3 f4 f5 f6 result }
{
    let t2 = a.u1.dbl(m);
    let t3 = a.u2.sqr(m);
    let p = a.u2.mul(f6, m);
    let t5 = f5.add(t3, m).sub(t2, m).sub(p, m);
    let k2 = t5.add(t3.dbl(m), m).sub(p, m);
    let t1 = a.u0.dbl(m);
    let k1 = cofactor_1(a, t1, t2, t5, f4, f6, m);
    let k0 = cofactor_0(a, t1, t3, k1, f3, f5, f6, m);
    Trio {
        c0: k0,
        c1: k1,
        c2: k2,
    }
}

// r and s' of two divisors. r is 0 where the two u have a common factor.
pub fn chord(a: Cubic, b: Cubic, prime: PrimeModulus) -> Opened
    requires { Held prime.m (Divisor.Three a) × Held prime.m (Divisor.Three b) }
    ensures { Opens prime.m a b result }
{
    let m = prime.m;
    let x = invert_u(a, b, prime);
    let c = v_gap(a, b, m);
    let s = times(c, x, b, m);
    let r = x.r;
    Opened { r: r, s: s }
}

// r and s' of a divisor with itself. r is 0 where u and v have a common factor.
pub fn tangent(
    a: Cubic,
    f3: Residue,
    f4: Residue,
    f5: Residue,
    f6: Residue,
    prime: PrimeModulus,
) -> Opened
    requires { Held prime.m (Divisor.Three a) × (Kept prime.m f3 × (Kept prime.m f4 × (Kept prime.m f5 × Kept prime.m f6))) }
    ensures { OpensTwice prime.m f3 f4 f5 f6 a result }
{
    let m = prime.m;
    let x = invert_twice_v(a, prime);
    let c = cofactor_mod_u(a, f3, f4, f5, f6, m);
    let s = times(c, x, a, m);
    let r = x.r;
    Opened { r: r, s: s }
}
