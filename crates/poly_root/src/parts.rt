// Parts of a cubic u (W-213): what it shares with x^p - x, whose roots are all of u's; and with (x + a)^((p-1)/2) - 1, which parts them by a shift.
ghost use Rattle.field.specs.Residues.{el};
ghost use Rattle.poly_root.specs.rests.Rests.{SettledCubic};
ghost use Rattle.poly_root.specs.parts.Parts.{ToShare, Shared, Part, ToShift, all_roots, shifted};

use crate::rests::{MonicCubic, Rest};
use field::{PrimeModulus, Residue};
use poly::Poly;

// The monic gcd of u and r.
fn common(u: MonicCubic, r: Rest, prime: PrimeModulus) -> Poly
    requires { ToShare prime.m u r }
    ensures { Shared prime.m u r result }
{
    let m = prime.m;
    let a = curve::polynomials::parabola(u.u0, u.u1, u.u2, m).put(3, Residue::one(m), m);
    let b = curve::polynomials::parabola(r.c0.settle(m), r.c1.settle(m), r.c2.settle(m), m);
    poly_euclid::gcd(a, b, prime)
}

// What u shares with x^p - x.
pub fn field_part(u: MonicCubic, prime: PrimeModulus) -> Poly
    requires { SettledCubic prime.m u }
    ensures { Part prime.m u (all_roots prime.m) result }
{
    let m = prime.m;
    let one = Residue::one(m);
    let zero = Residue::zero();
    let x = Rest {
        c0: zero,
        c1: one,
        c2: zero,
    };
    let w = crate::rests::raise(x, m.number(), u, m);
    let r = Rest {
        c0: w.c0,
        c1: w.c1.sub(one, m),
        c2: w.c2,
    };
    common(u, r, prime)
}

// What u shares with (x + a)^((p-1)/2) - 1.
pub fn shift_part(u: MonicCubic, a: Residue, prime: PrimeModulus) -> Poly
    requires { ToShift prime.m u a }
    ensures { Part prime.m u (shifted prime.m (el prime.m a)) result }
{
    let m = prime.m;
    let one = Residue::one(m);
    let zero = Residue::zero();
    let x = Rest {
        c0: a,
        c1: one,
        c2: zero,
    };
    let w = crate::rests::raise(x, (m.number() - 1) / 2, u, m);
    let r = Rest {
        c0: w.c0.sub(one, m),
        c1: w.c1,
        c2: w.c2,
    };
    common(u, r, prime)
}
