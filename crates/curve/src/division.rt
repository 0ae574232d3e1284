// What is left when a polynomial is divided by a divisor's u, found from the top coefficient down, one at a time; and whether that is zero.
ghost use Rattle.std.specs.Prelude.{◌≡◌, [], ◌∷◌};
ghost use Rattle.algebra.proofs.Zmod.Zmod.{zmod};
ghost use Rattle.field.specs.Primes.{Decides};
ghost use Rattle.field.specs.Residues.{el, Kept, Stands};
ghost use Rattle.divisor.specs.Divisors.{Held};
ghost use Rattle.curve.specs.division.Turns.{two, three, AllKept, AllZero, Turned};

use divisor::{Divisor, Duo, Linear, Quadratic, Trio};
use field::{Modulus, Residue};

// c - t * u.
pub fn less(c: Residue, t: Residue, u: Residue, m: Modulus) -> Residue
    requires { Kept m c × (Kept m t × Kept m u) }
    ensures { Stands m result ((zmod m.p).add (el m c) ((zmod m.p).neg ((zmod m.p).mul (el m t) (el m u)))) }
{
    c.sub(t.mul(u, m), m)
}

pub fn is_none(a: Residue, m: Modulus) -> bool
    requires { Kept m a }
    ensures { Decides result (el m a ≡ (zmod m.p).zer) }
{
    a.settle(m).is_zero(m)
}

pub fn is_none_two(a: Duo, m: Modulus) -> bool
    requires { AllKept m (two a) }
    ensures { Decides result (AllZero m (two a)) }
{
    if is_none(a.c0, m) {
        if is_none(a.c1, m) {
            return true;
        }
    }
    false
}

pub fn is_none_three(b: Trio, m: Modulus) -> bool
    requires { AllKept m (three b) }
    ensures { Decides result (AllZero m (three b)) }
{
    if is_none(b.c0, m) {
        if is_none(b.c1, m) {
            if is_none(b.c2, m) {
                return true;
            }
        }
    }
    false
}

// One coefficient more: what a polynomial leaves, times x, and c.
pub fn turn_one(a: Residue, c: Residue, d: Linear, m: Modulus) -> Residue
    requires { Kept m c × (Kept m a × Held m (Divisor.One d)) }
    ensures { Turned m (Divisor.One d) c (a ∷ []) (result ∷ []) }
{
    less(c, a, d.u0, m)
}

pub fn turn_two(a: Duo, c: Residue, d: Quadratic, m: Modulus) -> Duo
    requires { Kept m c × (AllKept m (two a) × Held m (Divisor.Two d)) }
    ensures { Turned m (Divisor.Two d) c (two a) (two result) }
{
    let t = a.c1;
    let c0 = less(c, t, d.u0, m);
    let c1 = less(a.c0, t, d.u1, m);
    Duo { c0: c0, c1: c1 }
}
