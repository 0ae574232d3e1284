// Whether two divisors are of one meter, equal or opposite.
#![tactic(auto)]

ghost use Rattle.rules.specs.Lists.{Same};
ghost use Rattle.field.specs.Primes.{Decides};
ghost use Rattle.divisor.specs.declared.Divisor.TheVariants.{One, Two, Three};
ghost use Rattle.divisor.specs.Divisors.{pair, Held};
ghost use Rattle.divisor_repeat.specs.Padded.{Pads};

use divisor::{Cubic, Divisor, Linear, Quadratic};
use field::{Modulus, Residue};

pub mod alike;

// With zeros behind its coefficients, so that all weights are compared as one.
fn pad_one(d: Linear) -> Cubic
    ensures { Pads 2 (One d) (Three result) }
{
    let z = Residue::zero();
    Cubic {
        u0: d.u0,
        u1: z,
        u2: z,
        v0: d.v0,
        v1: z,
        v2: z,
    }
}

fn pad_two(d: Quadratic) -> Cubic
    ensures { Pads 1 (Two d) (Three result) }
{
    let z = Residue::zero();
    Cubic {
        u0: d.u0,
        u1: d.u1,
        u2: z,
        v0: d.v0,
        v1: d.v1,
        v2: z,
    }
}

// Two meters are the same when their divisors are equal or opposite.
#[tactic(auto, using(crate::proofs::Compared::not_neutral, crate::proofs::Compared::not_one, crate::proofs::Compared::not_two, crate::proofs::Compared::not_three))]
pub fn same(a: Divisor, b: Divisor, m: Modulus) -> bool
    requires { Held m a × Held m b }
    ensures { Decides result (Same (pair m a) (pair m b)) }
{
    match (a, b) {
        (Divisor::Neutral, Divisor::Neutral) => true,
        (Divisor::One(c), Divisor::One(d)) => alike::same_cubics(pad_one(c), pad_one(d), m),
        (Divisor::Two(c), Divisor::Two(d)) => alike::same_cubics(pad_two(c), pad_two(d), m),
        (Divisor::Three(c), Divisor::Three(d)) => alike::same_cubics(c, d, m),
        _ => false,
    }
}
