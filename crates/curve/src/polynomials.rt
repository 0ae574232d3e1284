// Polynomials of a few coefficients, and an equation's f as one: made only where a polynomial is needed, for the plain sum and for the test of a curve.
ghost use Rattle.std.specs.Prelude.{[], ◌∷◌};
ghost use Rattle.algebra.proofs.Zmod.Zmod.{zmod};
ghost use Rattle.algebra.proofs.List.Value.{pol as list-pol};
ghost use Rattle.field.specs.Residues.{el, Settled};
ghost use Rattle.poly.specs.Polys.{Is};
ghost use Rattle.curve.specs.polynomials.Few.{OfEquation};

use crate::Equation;
use field::{Modulus, Residue};
use poly::Poly;

// a + b * x.
pub fn line(a: Residue, b: Residue, m: Modulus) -> Poly
    requires { Settled m a × Settled m b }
    ensures { Is m result (list-pol (zmod m.p) (el m a ∷ el m b ∷ [])) 2 }
{
    Poly::constant(a, m).put(1, b, m)
}

// a + b * x + c * x^2.
pub fn parabola(a: Residue, b: Residue, c: Residue, m: Modulus) -> Poly
    requires { Settled m a × Settled m b × Settled m c }
    ensures { Is m result (list-pol (zmod m.p) (el m a ∷ el m b ∷ el m c ∷ [])) 3 }
{
    line(a, b, m).put(2, c, m)
}

// f, its leading 1 too.
pub fn f_of(c: Equation) -> Poly
    ensures { OfEquation c result }
{
    let m = c.prime.m;
    let g = c.g;
    let o = Residue::one(m);
    let a = parabola(c.f0, c.f1, c.f2, m)
        .put(3, c.f3, m)
        .put(4, c.f4, m);
    if g == 2 {
        return a.put(5, o, m);
    }
    a.put(5, c.f5, m).put(6, c.f6, m).put(7, o, m)
}
