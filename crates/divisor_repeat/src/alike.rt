// Whether two divisors of weight 3 are equal or opposite.
ghost use Rattle.std.specs.Prelude.{◌≡◌};
ghost use Rattle.algebra.proofs.Zmod.Zmod.{zmod};
ghost use Rattle.algebra.proofs.List.Ops.{neg_l};
ghost use Rattle.rules.specs.Lists.{Same};
ghost use Rattle.field.specs.Primes.{Decides};
ghost use Rattle.field.specs.Residues.{el, Settled};
ghost use Rattle.divisor.specs.declared.Divisor.TheVariants.{Three};
ghost use Rattle.divisor.specs.Divisors.{us, vs, elements, pair, Held};

use divisor::Cubic;
use field::{Modulus, Residue};

// Whether a is the opposite of b.
fn cancels(a: Residue, b: Residue, m: Modulus) -> bool
    requires { Settled m a × Settled m b }
    ensures { Decides result (el m a ≡ (zmod m.p).neg (el m b)) }
{
    a.add(b, m).settle(m).is_zero(m)
}

// Whether they have one u: below p, one element is one number.
fn equal_u(a: Cubic, b: Cubic) -> bool
    ensures { Decides result (us (Three a) ≡ us (Three b)) }
{
    a.u0 == b.u0 && a.u1 == b.u1 && a.u2 == b.u2
}

fn equal_v(a: Cubic, b: Cubic) -> bool
    ensures { Decides result (vs (Three a) ≡ vs (Three b)) }
{
    a.v0 == b.v0 && a.v1 == b.v1 && a.v2 == b.v2
}

// Whether the v of one is the opposite of the other's.
#[tactic(auto, unfolding(algebra::proofs::List::Ops::neg_l))]
fn opposite_v(a: Cubic, b: Cubic, m: Modulus) -> bool
    requires { Held m (Three a) × Held m (Three b) }
    ensures { Decides result (elements m (vs (Three a)) ≡ neg_l (zmod m.p) (elements m (vs (Three b)))) }
{
    cancels(a.v0, b.v0, m) && cancels(a.v1, b.v1, m) && cancels(a.v2, b.v2, m)
}

// u is compared once, and then v or -v.
pub fn same_cubics(a: Cubic, b: Cubic, m: Modulus) -> bool
    requires { Held m (Three a) × Held m (Three b) }
    ensures { Decides result (Same (pair m (Three a)) (pair m (Three b))) }
{
    if !equal_u(a, b) {
        return false;
    }
    if equal_v(a, b) {
        return true;
    }
    opposite_v(a, b, m)
}
