// Sums of genus 2 without division (source 001, its tables of addition and doubling without inversions, h = 0): u1, u0, v1 and v0 over one Z. Each function
// is one or more of a table's ten steps and promises what power of Z its numbers are of the affine ones, for whatever quotients it is given; where the
// last Z isn't 0 the answer stands for the rule's sum. From step 5 on both tables are one: a doubling's r is taken times Z.
//
// 001 prints one sign for several values: its three R's are R = Z·r (`rz`), R~ of steps 5 and 9, here Ra = R·s3 (`ra`, for Z and u), and R~ of step 10,
// here Rb = S3·s1·R (for v; no number holds it, since S3 is taken out of v). Its four S's are S3 = s3² (`ss`), S = s0·s1, S~ = s3·s1 and s0·s3: the last three
// stand in sums of products only.
#![tactic(auto)]

ghost use Rattle.field.specs.Residues.{Kept, HasInverse};
ghost use Rattle.divisor.specs.Divisors.{Held};
ghost use Rattle.multiple_tuple.specs.Tuples.{KeptTuple, Added, Mixed, Doubled, Lifted, Divided};
ghost use Rattle.multiple_tuple.specs.Steps.{KeptGap, KeptDuo, KeptRight, KeptLine, KeptPowers, Widened, WidenedPlain, Differ, Chorded, Righted, Touched, Prepared, MakesU, MakesUTwice, MakesV, Through};

use divisor::{Divisor, Duo, Quadratic};
use field::{Modulus, PrimeModulus, Residue};

// x² + (u1 / z) x + u0 / z, (v1 / z) x + v0 / z.
#[derive(Clone, Copy, Debug, PartialEq, Eq)]
pub struct Tuple {
    pub u1: Residue,
    pub u0: Residue,
    pub v1: Residue,
    pub v0: Residue,
    pub z: Residue,
}

// 001's z1 and z2, and the sum of both u1.
#[derive(Clone, Copy, Debug, PartialEq, Eq)]
pub struct Gap {
    pub z1: Residue,
    pub z2: Residue,
    pub both: Residue,
}

// A doubling's k, and 2 u1 - f4.
#[derive(Clone, Copy, Debug, PartialEq, Eq)]
pub struct RightSide {
    pub k0: Residue,
    pub k1: Residue,
    pub d: Residue,
}

// r, s1 and s0 as they are after step 5: s0 times Z.
#[derive(Clone, Copy, Debug, PartialEq, Eq)]
pub struct Line {
    pub r: Residue,
    pub s1: Residue,
    pub s0: Residue,
}

// R, s3, Ra and S3, and s1·u1.
#[derive(Clone, Copy, Debug, PartialEq, Eq)]
pub struct Powers {
    pub rz: Residue,
    pub s3: Residue,
    pub ra: Residue,
    pub ss: Residue,
    pub t: Residue,
}

// Step 1 of an addition: the same quotients over y, which is the Z of t times x.
fn widen(t: Tuple, x: Residue, y: Residue, m: Modulus) -> Tuple
    requires { KeptTuple m t × (Kept m x × Kept m y) }
    ensures { Widened m t x y result }
{
    let u1 = t.u1.mul(x, m);
    let u0 = t.u0.mul(x, m);
    let v1 = t.v1.mul(x, m);
    let v0 = t.v0.mul(x, m);
    Tuple {
        u1,
        u0,
        v1,
        v0,
        z: y,
    }
}

// Step 1 where it is plain: over x.
fn widen_plain(q: Quadratic, x: Residue, m: Modulus) -> Tuple
    requires { Held m (Divisor.Two q) × Kept m x }
    ensures { WidenedPlain m q x result }
{
    let u1 = x.mul(q.u1, m);
    let u0 = x.mul(q.u0, m);
    let v1 = x.mul(q.v1, m);
    let v0 = x.mul(q.v0, m);
    Tuple {
        u1,
        u0,
        v1,
        v0,
        z: x,
    }
}

// Step 2 begins: how both u differ.
fn u_gap(w: Tuple, b: Tuple, m: Modulus) -> Gap
    requires { KeptTuple m w × KeptTuple m b }
    ensures { Differ m w b result }
{
    let z1 = w.u1.sub(b.u1, m);
    let z2 = b.u0.sub(w.u0, m);
    let both = w.u1.add(b.u1, m);
    Gap { z1, z2, both }
}

// Steps 2 to 4 of an addition: r and s of the line through both pairs. o is the other one, w is the same over the Z of b, which is the base. With
// z3 = u1·z1 + z2 for the inverse's constant, s1 = z3·w1 + z1·w0 - u1·z1·w1 is z2·w1 + z1·w0.
fn chord(o: Tuple, w: Tuple, b: Tuple, g: Gap, m: Modulus) -> Line
    requires { KeptTuple m o × (KeptTuple m w × (KeptTuple m b × Differ m w b g)) }
    ensures { Chorded m o w b result }
{
    let z3 = o.u1.dot(g.z1, g.z2, o.z, m);
    let y = g.z1.mul(o.u0, m);
    let r = g.z2.dot(z3, g.z1, y, m);
    let w0 = w.v0.sub(b.v0, m);
    let w1 = w.v1.sub(b.v1, m);
    let s1 = g.z2.dot(w1, g.z1, w0, m).mul(o.z, m);
    let s0 = z3.cross(w0, w1, y, m).mul(b.z, m);
    Line { r, s1, s0 }
}

// Step 3 of a doubling: k = (f - v²) / u modulo u. With d = 2 u1 - f4 and e = f3 + u1·(u1 - f4) it is
// k1 = u1·d + e - 2 u0, k0 = f2 + 2 u0·d - v1² - u1·e.
fn cofactor_mod_u(t: Tuple, f2: Residue, f3: Residue, f4: Residue, m: Modulus) -> RightSide
    requires { KeptTuple m t × (Kept m f2 × (Kept m f3 × Kept m f4)) }
    ensures { Righted m t f2 f3 f4 result }
{
    let b = t.u1.sub(f4.mul(t.z, m), m);
    let d = t.u1.add(b, m);
    let w = t.u0.dbl(m);
    let q = t.z.sqr(m);
    let e = f3.dot(q, t.u1, b, m);
    let k1 = t.u1.cross(d, t.z, w, m).add(e, m);
    let g = f2.dot(q, w, d, m).sub(t.v1.sqr(m), m);
    let k0 = t.z.cross(g, t.u1, e, m);
    RightSide { k0, k1, d }
}

// Steps 1, 2 and 4 of a doubling: r times Z, and s, of the tangent. With i0 = 2 v0 - u1·2 v1 for the inverse's constant, s1 is 2 v0·k1 - 2 v1·k0.
fn tangent(t: Tuple, k: RightSide, m: Modulus) -> Line
    requires { KeptTuple m t × KeptRight m k }
    ensures { Touched m t k result }
{
    let g1 = t.v1.dbl(m);
    let g0 = t.v0.dbl(m);
    let e = g0.mul(t.z, m);
    let i0 = e.sub(t.u1.mul(g1, m), m);
    let y = g1.mul(t.u0, m).mul(t.z, m);
    let r = e.dot(i0, g1, y, m);
    let s1 = e.cross(k.k1, g1, k.k0, m);
    let s0 = i0.dot(k.k0, y, k.k1, m);
    Line { r, s1, s0 }
}

// Step 5, of both tables.
fn prepare(b: Tuple, s: Line, m: Modulus) -> Powers
    requires { KeptTuple m b × KeptLine m s }
    ensures { Prepared m b s result }
{
    let rz = b.z.mul(s.r, m);
    let s3 = s.s1.mul(b.z, m);
    let ra = rz.mul(s3, m);
    let ss = s3.sqr(m);
    let t = s.s1.mul(b.u1, m);
    Powers { rz, s3, ra, ss, t }
}

// Step 7 of an addition: the new u, times S3.
fn new_u(b: Tuple, s: Line, g: Gap, p: Powers, f4: Residue, m: Modulus) -> Duo
    requires { KeptTuple m b × (KeptLine m s × (Prepared m b s p × (KeptGap m g × Kept m f4))) }
    ensures { MakesU m b s g p f4 result }
{
    let y = s.s1.mul(g.z1, m);
    let d = s.s0.sub(y, m);
    let n1 = p.s3.cross(s.s0.add(d, m), p.rz, p.rz, m);
    let c = s.s1.dot(b.v1.dbl(m), s.r, g.both.sub(f4.mul(b.z, m), m), m);
    let n0 = d
        .dot(d, y, p.t, m)
        .add(p.s3.dot(s.s1.mul(g.z2, m), p.rz, c, m), m);
    Duo { c0: n0, c1: n1 }
}

// Step 7 of a doubling; d is 2 u1 - f4.
fn new_u_twice(b: Tuple, s: Line, p: Powers, d: Residue, m: Modulus) -> Duo
    requires { KeptTuple m b × (KeptLine m s × (Prepared m b s p × Kept m d)) }
    ensures { MakesUTwice m b s p d result }
{
    let n1 = p.s3.cross(s.s0.dbl(m), p.rz, p.rz, m);
    let c = s.s1.dot(b.v1.dbl(m), s.r, d, m);
    let n0 = s.s0.dot(s.s0, p.rz, c, m);
    Duo { c0: n0, c1: n1 }
}

// Steps 6 and 8 to 10: the new v, and all over the new Z = Ra.S3. l is taken with v in it, S3 taken out: so Rb needs no product of its own.
fn new_v(b: Tuple, s: Line, p: Powers, h: Duo, m: Modulus) -> Tuple
    requires { KeptTuple m b × (KeptLine m s × (KeptPowers m p × KeptDuo m h)) }
    ensures { MakesV m b s p h result }
{
    let l3 = p.s3.mul_sum(p.t, s.s0, m).sub(h.c1, m);
    let j0 = s.s1.mul(s.s0.dot(b.u0, p.rz, b.v0, m), m);
    let j1 = s.s0.dot(p.t, s.s1, p.rz.dot(b.v1, p.s3, b.u0, m), m);
    let v0 = h.c0.cross(l3, p.ss, j0, m);
    let v1 = h.c1.dot(l3, p.ss, h.c0.sub(j1, m), m);
    let u1 = p.ra.mul(h.c1, m);
    let u0 = p.ra.mul(h.c0, m);
    let z = p.ra.mul(p.ss, m).settle(m);
    Tuple { u1, u0, v1, v0, z }
}

// Steps 2 to 10 of an addition: b is the base, w is o over the Z of b.
fn through(o: Tuple, w: Tuple, b: Tuple, f4: Residue, prime: PrimeModulus) -> Tuple
    requires { KeptTuple prime.m o × (KeptTuple prime.m w × (KeptTuple prime.m b × Kept prime.m f4)) }
    ensures { Through prime.m o w b f4 result }
{
    let m = prime.m;
    let g = u_gap(w, b, m);
    let s = chord(o, w, b, g, m);
    let p = prepare(b, s, m);
    let h = new_u(b, s, g, p, f4, m);
    new_v(b, s, p, h, m)
}

// a + b, ten steps.
pub fn add(a: Tuple, b: Tuple, f4: Residue, prime: PrimeModulus) -> Tuple
    requires { KeptTuple prime.m a × (KeptTuple prime.m b × Kept prime.m f4) }
    ensures { Added prime.m f4 a b result }
{
    let m = prime.m;
    let z = a.z.mul(b.z, m);
    let p = widen(a, b.z, z, m);
    let w = widen(b, a.z, z, m);
    through(b, w, p, f4, prime)
}

// The same where b is plain: its Z is 1, and it is the base.
pub fn mixed(a: Tuple, b: Quadratic, f4: Residue, prime: PrimeModulus) -> Tuple
    requires { KeptTuple prime.m a × (Held prime.m (Divisor.Two b) × Kept prime.m f4) }
    ensures { Mixed prime.m f4 a b result }
{
    let m = prime.m;
    let p = widen_plain(b, a.z, m);
    through(a, a, p, f4, prime)
}

// a + a, ten steps.
pub fn double(a: Tuple, f2: Residue, f3: Residue, f4: Residue, prime: PrimeModulus) -> Tuple
    requires { KeptTuple prime.m a × (Kept prime.m f2 × (Kept prime.m f3 × Kept prime.m f4)) }
    ensures { Doubled prime.m f2 f3 f4 a result }
{
    let m = prime.m;
    let k = cofactor_mod_u(a, f2, f3, f4, m);
    let s = tangent(a, k, m);
    let p = prepare(a, s, m);
    let h = new_u_twice(a, s, p, k.d, m);
    new_v(a, s, p, h, m)
}

// A plain divisor as a tuple, over 1.
pub fn lift(q: Quadratic, m: Modulus) -> Tuple
    requires { Held m (Divisor.Two q) }
    ensures { Lifted m q result }
{
    Tuple {
        u1: q.u1,
        u0: q.u0,
        v1: q.v1,
        v0: q.v0,
        z: Residue::one(m),
    }
}

// And back, by the one inverse of a multiple.
pub fn back(t: Tuple, prime: PrimeModulus) -> Quadratic
    requires { KeptTuple prime.m t × HasInverse prime.m t.z }
    ensures { Divided prime.m t result }
{
    let m = prime.m;
    let i = t.z.inverse(prime);
    let u0 = t.u0.mul(i, m).settle(m);
    let u1 = t.u1.mul(i, m).settle(m);
    let v0 = t.v0.mul(i, m).settle(m);
    let v1 = t.v1.mul(i, m).settle(m);
    Quadratic { u0, u1, v0, v1 }
}
