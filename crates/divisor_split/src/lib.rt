// A divisor split in two (W-213): for weight 2 the two of weight 1, the one with the smaller u0 first; for weight 3 the one of weight 1 at the largest root of u, then the rest.
#![tactic(auto)]

ghost use Rattle.field.specs.Residues.{el};
ghost use Rattle.divisor.specs.Divisors.{Held};
ghost use Rattle.divisor_split.specs.Splits.{ToTake, PartAt, ToDivide, RestAt, SplitIs};

use divisor::{Cubic, Divisor, Linear, Quadratic};
use field::{Modulus, PrimeModulus, Residue};
use poly_root::rests::MonicCubic;

// The part of weight 1 at y: u is x - y, and v what is left of v there.
fn point_of_two(d: Quadratic, y: Residue, m: Modulus) -> Linear
    requires { ToTake m (Divisor.Two d) y }
    ensures { PartAt m (Divisor.Two d) (el m y) (Divisor.One result) }
{
    let u0 = y.neg(m).settle(m);
    let v0 = curve::division::less(d.v0, d.v1, u0, m).settle(m);
    Linear { u0: u0, v0: v0 }
}

fn point_of_three(d: Cubic, y: Residue, m: Modulus) -> Linear
    requires { ToTake m (Divisor.Three d) y }
    ensures { PartAt m (Divisor.Three d) (el m y) (Divisor.One result) }
{
    let u0 = y.neg(m).settle(m);
    let w = curve::division::less(d.v1, d.v2, u0, m);
    let v0 = curve::division::less(d.v0, w, u0, m).settle(m);
    Linear { u0: u0, v0: v0 }
}

// What is left of weight 3 at a root y: u divided by x - y, and v modulo that.
fn rest_of_three(d: Cubic, y: Residue, prime: PrimeModulus) -> Quadratic
    requires { ToDivide prime.m (Divisor.Three d) y }
    ensures { RestAt prime.m (Divisor.Three d) (el prime.m y) (Divisor.Two result) }
{
    let m = prime.m;
    let u1 = d.u2.add(y, m).settle(m);
    let u0 = y.mul(u1, m).add(d.u1, m).settle(m);
    let v1 = curve::division::less(d.v1, d.v2, u1, m).settle(m);
    let v0 = curve::division::less(d.v0, d.v2, u0, m).settle(m);
    Quadratic {
        u0: u0,
        u1: u1,
        v0: v0,
        v1: v1,
    }
}

fn split_two(d: Quadratic, prime: PrimeModulus) -> Option<(Divisor, Divisor)>
    requires { Held prime.m (Divisor.Two d) }
    ensures { SplitIs prime.m (Divisor.Two d) result }
{
    let m = prime.m;
    let (r, t) = field_root::quadratic(d.u1, d.u0, prime)?;
    let a = point_of_two(d, r, m);
    let b = point_of_two(d, t, m);
    if b.u0.number(m) < a.u0.number(m) {
        return Some((Divisor::One(b), Divisor::One(a)));
    }
    Some((Divisor::One(a), Divisor::One(b)))
}

fn split_three(d: Cubic, prime: PrimeModulus) -> Option<(Divisor, Divisor)>
    requires { Held prime.m (Divisor.Three d) }
    ensures { SplitIs prime.m (Divisor.Three d) result }
{
    let u = MonicCubic {
        u0: d.u0,
        u1: d.u1,
        u2: d.u2,
    };
    let y = poly_root::largest_root(u, prime)?;
    let a = point_of_three(d, y, prime.m);
    let b = rest_of_three(d, y, prime);
    Some((Divisor::One(a), Divisor::Two(b)))
}

// The two parts, or None where there is no root to split at.
pub fn split(d: Divisor, prime: PrimeModulus) -> Option<(Divisor, Divisor)>
    requires { Held prime.m d }
    ensures { SplitIs prime.m d result }
{
    match d {
        Divisor::Neutral => None,
        Divisor::One(_) => None,
        Divisor::Two(x) => split_two(x, prime),
        Divisor::Three(x) => split_three(x, prime),
    }
}
