// Sums of genus 2 by explicit formula, on residues, from the steps of crate `sum_genus2_steps`, whose head names the tables. A sum is `chord`, which finds r and s', one inverse, and
// `close`: between the two, sums side by side can share the inverse. Beside it there are 22 products and 3 squares in a sum, 25 and 4 in a double, 12 and 2 in a sum whose
// slope is a constant, 16 and 2 in such a double.
#![tactic(auto)]

ghost use Rattle.field.specs.Residues.{Kept, Inverts};
ghost use Rattle.divisor.specs.Divisors.{Held};
ghost use Rattle.sum_genus2_steps.specs.Steps.{Apart, Undoes};
ghost use Rattle.sum_genus2.specs.Sums.{Ready, Flat, Opens, OpensTwice, Closes, Sum2, Double2};

use divisor::{Divisor, Duo, Linear, Quadratic};
use field::{Modulus, PrimeModulus, Residue};
use sum_formulas::Condition;

// What stands before the division: the slope is s / r. i is handed on because the new u needs it again.
#[derive(Clone, Copy)]
pub struct Opened {
    pub r: Residue,
    pub i: Duo,
    pub s: Duo,
}

// r, and s' for the slope s' / r of v + (s' / r)·u, which goes through both.
pub fn chord(a: Quadratic, b: Quadratic, prime: PrimeModulus) -> Opened
    requires { Held prime.m (Divisor.Two a) × Held prime.m (Divisor.Two b) }
    ensures { Opens prime.m a b result }
{
    let m = prime.m;
    let x = sum_genus2_steps::invert_u(a, b, m);
    let c = sum_genus2_steps::v_gap(a, b, m);
    let s = sum_genus2_steps::times(c, x, b, m);
    let r = x.r;
    let i = x.i;
    Opened { r: r, i: i, s: s }
}

// The same of a pair with itself: it touches the curve.
fn tangent(a: Quadratic, f2: Residue, f3: Residue, f4: Residue, prime: PrimeModulus) -> Opened
    requires { Held prime.m (Divisor.Two a) × (Kept prime.m f2 × (Kept prime.m f3 × Kept prime.m f4)) }
    ensures { OpensTwice prime.m f2 f3 f4 a result }
{
    let m = prime.m;
    let y = a.v1.sqr(m);
    let x = sum_genus2_steps::invert_twice_v(a, y, m);
    let c = sum_genus2_steps::cofactor_mod_u(a, y, f2, f3, f4, m);
    let s = sum_genus2_steps::times(c, x, a, m);
    let r = x.r;
    let i = x.i;
    Opened { r: r, i: i, s: s }
}

// The sum, where s' has degree 1 and i is the inverse of r · s1.
pub fn close(
    a: Quadratic,
    b: Quadratic,
    o: Opened,
    i: Residue,
    f4: Residue,
    m: Modulus,
) -> Quadratic
    requires { Held m (Divisor.Two a) × (Held m (Divisor.Two b) × (Ready m o × (Apart m a b o.i × (Undoes m o.r o.s i × Kept m f4)))) }
    ensures { Closes m f4 a b o (Divisor.Two result) }
{
    let s = o.s;
    let x = sum_genus2_steps::divide(o.r, s, i, m);
    let z = o.i;
    let n = sum_genus2_steps::new_u(a, b, z, x, f4, m);
    sum_genus2_steps::new_v(a, x, n, m)
}

// The same of a pair with itself.
fn close_twice(a: Quadratic, o: Opened, i: Residue, f4: Residue, m: Modulus) -> Quadratic
    requires { Held m (Divisor.Two a) × (Ready m o × (Undoes m o.r o.s i × Kept m f4)) }
    ensures { Closes m f4 a a o (Divisor.Two result) }
{
    let s = o.s;
    let x = sum_genus2_steps::divide(o.r, s, i, m);
    let n = sum_genus2_steps::new_u_twice(a, x, f4, m);
    sum_genus2_steps::new_v(a, x, n, m)
}

// The sum, where s' has degree below 1 and i is the inverse of r. A double calls it with b = a.
fn close_flat(a: Quadratic, b: Quadratic, o: Opened, i: Residue, f4: Residue, m: Modulus) -> Linear
    requires { Held m (Divisor.Two a) × (Held m (Divisor.Two b) × (Ready m o × (Flat m o × (Inverts m o.r i × Kept m f4)))) }
    ensures { Closes m f4 a b o (Divisor.One result) }
{
    let k = o.s.c0.mul(i, m);
    sum_genus2_steps::line(a, b, k, f4, m)
}

// a + b, both of weight 2: only where r is 0 there is no answer.
pub fn add(a: Quadratic, b: Quadratic, f4: Residue, prime: PrimeModulus) -> Option<Divisor>
    requires { Held prime.m (Divisor.Two a) × (Held prime.m (Divisor.Two b) × Kept prime.m f4) }
    ensures { Sum2 prime.m f4 a b result }
{
    let m = prime.m;
    let o = chord(a, b, prime);
    let k = sum_formulas::look(o.r, o.s.c1, m);
    match k {
        Condition::Special => None,
        Condition::Flat => {
            let i = o.r.inverse(prime);
            let d = close_flat(a, b, o, i, f4, m);
            Some(Divisor::One(d))
        }
        Condition::Main => {
            let i = o.r.mul(o.s.c1, m).inverse(prime);
            let d = close(a, b, o, i, f4, m);
            Some(Divisor::Two(d))
        }
    }
}

// a + a, the same way.
pub fn double(
    a: Quadratic,
    f2: Residue,
    f3: Residue,
    f4: Residue,
    prime: PrimeModulus,
) -> Option<Divisor>
    requires { Held prime.m (Divisor.Two a) × (Kept prime.m f2 × (Kept prime.m f3 × Kept prime.m f4)) }
    ensures { Double2 prime.m f2 f3 f4 a result }
{
    let m = prime.m;
    let o = tangent(a, f2, f3, f4, prime);
    let k = sum_formulas::look(o.r, o.s.c1, m);
    match k {
        Condition::Special => None,
        Condition::Flat => {
            let i = o.r.inverse(prime);
            let d = close_flat(a, a, o, i, f4, m);
            Some(Divisor::One(d))
        }
        Condition::Main => {
            let i = o.r.mul(o.s.c1, m).inverse(prime);
            let d = close_twice(a, o, i, f4, m);
            Some(Divisor::Two(d))
        }
    }
}
