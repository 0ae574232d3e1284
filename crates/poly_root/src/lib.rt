// The largest root of a monic cubic as a number below p (W-213). Its roots are those of what it shares with x^p - x. Where it has three different ones
// they are parted by shifts 0, 1, 2, .. of x, and some shift below p parts them (rules/proofs/Roots/Shift, `parted_by_power`). From one root the others
// are those of a quadratic.
#![tactic(auto)]

ghost use Rattle.field.specs.Residues.{Kept};
ghost use Rattle.poly_root.specs.rests.Rests.{SettledCubic};
ghost use Rattle.poly_root.specs.Roots.{IsRoot, RootIs, Whole, Larger, ToEnlarge, LargestRoot, LargestIs};

use crate::rests::MonicCubic;
use field::{Modulus, PrimeModulus, Residue};

pub mod parts;
pub mod rests;

// A root of a u that divides x^p - x: from the first shift that takes one root or two.
fn parted(u: MonicCubic, prime: PrimeModulus) -> Residue
    requires { Whole prime.m u }
    ensures { IsRoot prime.m u result }
{
    let m = prime.m;
    let one = Residue::one(m);
    let mut a = Residue::zero();
    for _k in 0..m.number() {
        let g = parts::shift_part(u, a, prime);
        let n = g.n;
        if n == 2 {
            return g.get(0).neg(m);
        }
        if n == 3 {
            return g.get(1).sub(u.u2, m);
        }
        a = a.add(one, m);
    }
    a
}

// Some root of u, or None where it has none.
fn some_root(u: MonicCubic, prime: PrimeModulus) -> Option<Residue>
    requires { SettledCubic prime.m u }
    ensures { RootIs prime.m u result }
{
    let g = parts::field_part(u, prime);
    match g.n {
        1 => None,
        2 => Some(g.get(0).neg(prime.m)),
        3 => {
            let (r, _) = field_root::quadratic(g.get(1), g.get(0), prime)?;
            Some(r)
        }
        _ => Some(parted(u, prime)),
    }
}

fn larger(a: Residue, b: Residue, m: Modulus) -> Residue
    requires { Kept m a × Kept m b }
    ensures { Larger m a b result }
{
    let x = a.settle(m);
    let y = b.settle(m);
    if x.number(m) < y.number(m) {
        return y;
    }
    x
}

// The largest root, from any root r: u is (x - r) (x^2 + b x + c).
fn largest_from(u: MonicCubic, r: Residue, prime: PrimeModulus) -> Residue
    requires { ToEnlarge prime.m u r }
    ensures { LargestRoot prime.m u result }
{
    let m = prime.m;
    let b = u.u2.add(r, m);
    let c = r.mul(b, m).add(u.u1, m);
    match field_root::quadratic(b, c, prime) {
        Some((s, t)) => larger(r, larger(s, t, m), m),
        None => r.settle(m),
    }
}

// The largest root of u, or None where it has none.
pub fn largest_root(u: MonicCubic, prime: PrimeModulus) -> Option<Residue>
    requires { SettledCubic prime.m u }
    ensures { LargestIs prime.m u result }
{
    let r = some_root(u, prime)?;
    Some(largest_from(u, r, prime))
}
