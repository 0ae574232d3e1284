// Genus 3 by formula, from s' / r to the sum, above `sum_genus3_open`: steps 5 to 11 of source 004's table 1 (addition) and 6 to 12 of its table 2 (doubling), for
// any f_6, where the tables have 0: it enters the first quotient's last coefficient and the answer's u_2, and no other. Each step promises an equation of K[x]; (u, v) is the pair a, the base; b is
// the other one. The two tables differ here only in the first quotient.
// The letters w, s, z (table 2: g) and t are the tables'; n and m stand for their u and v with a tilde. Misprints mended: in step 8 of table 1, t2, t3 and
// t4 stand before the coefficients 3 and 2 that they use; the headings of table 1's steps 9 and 11 and of table 2's 10 and 12 write u for v, and that of
// step 9 degree 2 for 3.
// With `sum_genus3_open` a sum takes 73 products and 5 squares under 47 reductions, a double 67 and 9 under 48: schoolbook, by twos under one reduction, where
// Toom's 70 products each want their own. One inverse stands between `chord` and `close`, so that sums side by side can share it.
#![tactic(auto)]

ghost use Rattle.algebra.proofs.Poly.Poly.{poly};
ghost use Rattle.field.specs.Residues.{Kept, Settled};
ghost use Rattle.divisor.specs.Divisors.{Held};
ghost use Rattle.sum_genus3_open.specs.Opens.{K, u_of};
ghost use Rattle.sum_genus3.specs.Steps.{KeptFour, KeptFive, KeptSlope, quintic_of, slope_of, Divisible, Slopes, Stretched};
ghost use Rattle.sum_genus3.specs.Steps.{Quotient1, Quotient0, Quotient, OverU, Rest, SecondU0, SecondV, Second};
ghost use Rattle.sum_genus3.specs.Sums.{Closes, Sum3, Double3};

use divisor::{Cubic, Divisor};
use field::{Modulus, PrimeModulus, Residue};
use sum_formulas::Condition;
use sum_genus3_open::Opened;

// c3 x³ + c2 x² + .., or x⁴ + c3 x³ + ..
#[derive(Clone, Copy)]
pub struct Four {
    pub c0: Residue,
    pub c1: Residue,
    pub c2: Residue,
    pub c3: Residue,
}

// x⁵ + c4 x⁴ + ..
#[derive(Clone, Copy)]
pub struct Five {
    pub c0: Residue,
    pub c1: Residue,
    pub c2: Residue,
    pub c3: Residue,
    pub c4: Residue,
}

// s = w · S with S = x² + s1 x + s0, and wi = 1 / w.
#[derive(Clone, Copy)]
pub struct Slope {
    pub w: Residue,
    pub wi: Residue,
    pub s0: Residue,
    pub s1: Residue,
}

// s' / r = w · S and wi = 1 / w, given i = 1 / (r · s'2).
fn divide(o: Opened, i: Residue, m: Modulus) -> Slope
    requires { Divisible m o i }
    ensures { Slopes m o result }
{
    let x = o.r.mul(i, m);
    let w = o.s.c2.sqr(m).mul(i, m);
    let wi = o.r.mul(x, m);
    let p0 = x.mul(o.s.c0, m);
    let p1 = x.mul(o.s.c1, m);
    Slope {
        w: w,
        wi: wi,
        s0: p0,
        s1: p1,
    }
}

// S · u.
fn stretch(a: Cubic, x: Slope, m: Modulus) -> Five
    requires { Held m (Divisor.Three a) × KeptSlope m x }
    ensures { Stretched m a x result }
{
    let z0 = a.u0.mul(x.s0, m);
    let z1 = a.u0.dot(x.s1, a.u1, x.s0, m);
    let z2 = a.u1.dot(x.s1, a.u2, x.s0, m).add(a.u0, m);
    let z3 = a.u2.mul(x.s1, m).add(a.u1, m).add(x.s0, m);
    let z4 = a.u2.add(x.s1, m);
    Five {
        c0: z0,
        c1: z1,
        c2: z2,
        c3: z3,
        c4: z4,
    }
}

// The first quotient's coefficient 1, from d = 2 v2 and the two above it.
fn quotient_1(
    b: Cubic,
    x: Slope,
    z: Five,
    d: Residue,
    n2: Residue,
    n3: Residue,
    m: Modulus,
) -> Residue
    requires { Held m (Divisor.Three b) × (KeptSlope m x × (KeptFive m z × (Kept m d × (Kept m n2 × Kept m n3)))) }
    ensures { Quotient1 m b x z d n2 n3 result }
{
    z.c2.sub(b.u0, m)
        .add(x.s0.dot(z.c4, x.s1, z.c3, m), m)
        .sub(b.u2.dot(n2, b.u1, n3, m), m)
        .add(x.wi.mul_diff(d, x.wi, m), m)
}

// Its coefficient 0, from the three above it; q is S · 2v - (f - v²) / (u · w) at place 3.
fn quotient_0(
    a: Cubic,
    b: Cubic,
    x: Slope,
    z: Five,
    f6: Residue,
    d: Residue,
    n1: Residue,
    n2: Residue,
    n3: Residue,
    m: Modulus,
) -> Residue
    requires { Held m (Divisor.Three a) × (Held m (Divisor.Three b) × (KeptSlope m x × (KeptFive m z × (Kept m f6 × (Kept m d × (Kept m n1 × (Kept m n2 × Kept m n3))))))) }
    ensures { Quotient0 m f6 a b x z d n1 n2 n3 result }
{
    let q = d.dot(x.s1, x.wi, a.u2.sub(f6, m), m).add(a.v1.dbl(m), m);
    z.c1.add(x.s0.cross(z.c3, b.u1, n2, m), m)
        .add(x.s1.dot(z.c2, x.wi, q, m), m)
        .sub(b.u2.dot(n1, b.u0, n3, m), m)
}

// The first quotient, from the top down, in the right order. What is divided is known to be a multiple, so its top coefficients are enough.
fn new_u(a: Cubic, b: Cubic, x: Slope, z: Five, f6: Residue, m: Modulus) -> Four
    requires { Held m (Divisor.Three a) × (Held m (Divisor.Three b) × (KeptSlope m x × (KeptFive m z × Kept m f6))) }
    ensures { Quotient m f6 a b x (quintic_of m z) result }
{
    let n3 = z.c4.add(x.s1, m).sub(b.u2, m);
    let t5 = x.s1.cross(z.c4, b.u2, n3, m);
    let n2 = z.c3.add(x.s0, m).add(t5, m).sub(b.u1, m);
    let d = a.v2.dbl(m);
    let n1 = quotient_1(b, x, z, d, n2, n3, m);
    let n0 = quotient_0(a, b, x, z, f6, d, n1, n2, n3, m);
    Four {
        c0: n0,
        c1: n1,
        c2: n2,
        c3: n3,
    }
}

// S · 2v - (f - v²) / (u · w) over u, at place 0; d is 2 v2.
fn over_u(a: Cubic, x: Slope, d: Residue, f6: Residue, m: Modulus) -> Residue
    requires { Held m (Divisor.Three a) × (KeptSlope m x × (Kept m d × Kept m f6)) }
    ensures { OverU m f6 a x d result }
{
    x.s1.sub(a.u2, m)
        .dot(d, x.wi, a.u2.dbl(m).sub(f6, m), m)
        .add(a.v1.dbl(m), m)
}

// The same of a pair with itself: S² is divided off.
fn new_u_twice(a: Cubic, x: Slope, f6: Residue, m: Modulus) -> Four
    requires { Held m (Divisor.Three a) × (KeptSlope m x × Kept m f6) }
    ensures { Quotient m f6 a a x ((poly (K m)).mul (slope_of m x) (u_of m a)) result }
{
    let n3 = x.s1.dbl(m);
    let n2 = x.s1.sqr(m).add(x.s0.dbl(m), m);
    let d = a.v2.dbl(m);
    let n1 = n3.dot(x.s0, x.wi, d.sub(x.wi, m), m);
    let q = over_u(a, x, d, f6, m);
    let n0 = x.s0.dot(x.s0, x.wi, q, m);
    Four {
        c0: n0,
        c1: n1,
        c2: n2,
        c3: n3,
    }
}

// v + s · u modulo it; its opposite belongs to the pair, and the second step turns the sign back.
fn new_v(a: Cubic, x: Slope, z: Five, n: Four, m: Modulus) -> Four
    requires { Held m (Divisor.Three a) × (KeptSlope m x × (KeptFive m z × KeptFour m n)) }
    ensures { Rest m a x z n result }
{
    let y = x.w.mul_diff(n.c3, z.c4, m);
    let m0 = y.dot(n.c0, x.w, z.c0, m).add(a.v0, m);
    let m1 = y.dot(n.c1, x.w, z.c1.sub(n.c0, m), m).add(a.v1, m);
    let m2 = y.dot(n.c2, x.w, z.c2.sub(n.c1, m), m).add(a.v2, m);
    let m3 = y.dot(n.c3, x.w, z.c3.sub(n.c2, m), m);
    Four {
        c0: m0,
        c1: m1,
        c2: m2,
        c3: m3,
    }
}

// The second u's coefficient 0, from t1 = 2 t3 and the two above it.
fn second_u0(
    n: Four,
    t: Four,
    t1: Residue,
    e1: Residue,
    e2: Residue,
    f4: Residue,
    m: Modulus,
) -> Residue
    requires { KeptFour m n × (KeptFour m t × (Kept m t1 × (Kept m e1 × (Kept m e2 × Kept m f4)))) }
    ensures { SecondU0 m n t t1 e1 e2 f4 result }
{
    f4.sub(n.c1, m)
        .sub(t.c2.dot(t.c2, e2, n.c2, m), m)
        .sub(e1.dot(n.c3, t1, t.c1, m), m)
        .settle(m)
}

// u with v = t modulo u.
fn second_v(e0: Residue, e1: Residue, e2: Residue, t: Four, m: Modulus) -> Cubic
    requires { Settled m e0 × (Settled m e1 × (Settled m e2 × KeptFour m t)) }
    ensures { SecondV m e0 e1 e2 t result }
{
    let q2 = t.c2.sub(e2.mul(t.c3, m), m).settle(m);
    let q1 = t.c1.sub(e1.mul(t.c3, m), m).settle(m);
    let q0 = t.c0.sub(e0.mul(t.c3, m), m).settle(m);
    Cubic {
        u0: e0,
        u1: e1,
        u2: e2,
        v0: q0,
        v1: q1,
        v2: q2,
    }
}

// The second step, settled: u = (f - t²) / n, v = t modulo u.
fn second(n: Four, t: Four, f4: Residue, f5: Residue, f6: Residue, m: Modulus) -> Cubic
    requires { KeptFour m n × (KeptFour m t × (Kept m f4 × (Kept m f5 × Kept m f6))) }
    ensures { Second m n t f4 f5 f6 result }
{
    let t1 = t.c3.dbl(m);
    let e2 = f6.sub(n.c3.add(t.c3.sqr(m), m), m).settle(m);
    let e1 = f5.sub(n.c2, m).sub(e2.dot(n.c3, t1, t.c2, m), m).settle(m);
    let e0 = second_u0(n, t, t1, e1, e2, f4, m);
    second_v(e0, e1, e2, t, m)
}

// The sum of a and b from their r and s', given i = 1 / (r · s'2).
pub fn close(
    a: Cubic,
    b: Cubic,
    o: Opened,
    i: Residue,
    f4: Residue,
    f5: Residue,
    f6: Residue,
    m: Modulus,
) -> Cubic
    requires { Held m (Divisor.Three a) × (Held m (Divisor.Three b) × (Divisible m o i × (Kept m f4 × (Kept m f5 × Kept m f6)))) }
    ensures { Closes m f4 f5 f6 a b o result }
{
    let y = divide(o, i, m);
    let z = stretch(a, y, m);
    let n = new_u(a, b, y, z, f6, m);
    let t = new_v(a, y, z, n, m);
    second(n, t, f4, f5, f6, m)
}

// The same of a with itself.
fn close_twice(
    a: Cubic,
    o: Opened,
    i: Residue,
    f4: Residue,
    f5: Residue,
    f6: Residue,
    m: Modulus,
) -> Cubic
    requires { Held m (Divisor.Three a) × (Divisible m o i × (Kept m f4 × (Kept m f5 × Kept m f6))) }
    ensures { Closes m f4 f5 f6 a a o result }
{
    let y = divide(o, i, m);
    let z = stretch(a, y, m);
    let n = new_u_twice(a, y, f6, m);
    let t = new_v(a, y, z, n, m);
    second(n, t, f4, f5, f6, m)
}

// a + b, where r and s'2 aren't 0.
pub fn add(
    a: Cubic,
    b: Cubic,
    f4: Residue,
    f5: Residue,
    f6: Residue,
    prime: PrimeModulus,
) -> Option<Divisor>
    requires { Held prime.m (Divisor.Three a) × (Held prime.m (Divisor.Three b) × (Kept prime.m f4 × (Kept prime.m f5 × Kept prime.m f6))) }
    ensures { Sum3 prime.m f4 f5 f6 a b result }
{
    let m = prime.m;
    let o = sum_genus3_open::chord(a, b, prime);
    let k = sum_formulas::look(o.r, o.s.c2, m);
    match k {
        Condition::Special => None,
        Condition::Flat => None,
        Condition::Main => {
            let p = o.r.mul(o.s.c2, m);
            let i = p.inverse(prime);
            let d = close(a, b, o, i, f4, f5, f6, m);
            Some(Divisor::Three(d))
        }
    }
}

// a + a, where r and s'2 aren't 0.
pub fn double(
    a: Cubic,
    f3: Residue,
    f4: Residue,
    f5: Residue,
    f6: Residue,
    prime: PrimeModulus,
) -> Option<Divisor>
    requires { Held prime.m (Divisor.Three a) × (Kept prime.m f3 × (Kept prime.m f4 × (Kept prime.m f5 × Kept prime.m f6))) }
    ensures { Double3 prime.m f3 f4 f5 f6 a result }
{
    let m = prime.m;
    let o = sum_genus3_open::tangent(a, f3, f4, f5, f6, prime);
    let k = sum_formulas::look(o.r, o.s.c2, m);
    match k {
        Condition::Special => None,
        Condition::Flat => None,
        Condition::Main => {
            let p = o.r.mul(o.s.c2, m);
            let i = p.inverse(prime);
            let d = close_twice(a, o, i, f4, f5, f6, m);
            Some(Divisor::Three(d))
        }
    }
}
