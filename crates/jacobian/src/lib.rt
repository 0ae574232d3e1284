// The group of a curve's divisors: sum, double, opposite. Each promise is an equation with a rule of the crate `rules`. One sum is picked here, between the
// formulae and the plain sum; sums that share an inverse are opened by formula in `openings`, which comes here for all that no formula takes.
#![tactic(auto)]

ghost use Rattle.rules.specs.Sum.{sum, double};
ghost use Rattle.rules.specs.Pair.{opposite};
ghost use Rattle.divisor.specs.Divisors.{pair};
ghost use Rattle.curve.specs.Curves.{curve_of, Holds, Gives};
ghost use Rattle.jacobian.specs.Tries.{UnfitSum, UnfitDouble, Tried};

use curve::Curve;
use divisor::{Cubic, Divisor, Quadratic};

// By formula: genus 2 and weight 2.
#[tactic(auto, using(crate::proofs::Quicks::tried_two))]
fn quick_two(c: Curve, a: Quadratic, b: Quadratic) -> Option<Divisor>
    requires { Holds c (Divisor.Two a) × Holds c (Divisor.Two b) }
    ensures { Tried c (UnfitSum c (Divisor.Two a) (Divisor.Two b)) (sum (curve_of c) (pair c.prime.m (Divisor.Two a)) (pair c.prime.m (Divisor.Two b))) result }
{
    let g = c.g;
    if g == 2 {
        return sum_genus2::add(a, b, c.f4, c.prime);
    }
    None
}

#[tactic(auto, using(crate::proofs::Quicks::twice_two))]
fn twice_two(c: Curve, a: Quadratic) -> Option<Divisor>
    requires { Holds c (Divisor.Two a) }
    ensures { Tried c (UnfitDouble c (Divisor.Two a)) (sum (curve_of c) (pair c.prime.m (Divisor.Two a)) (pair c.prime.m (Divisor.Two a))) result }
{
    let g = c.g;
    if g == 2 {
        return sum_genus2::double(a, c.f2, c.f3, c.f4, c.prime);
    }
    None
}

// By formula: weight 3, so genus 3.
#[tactic(auto, using(crate::proofs::Quicks::tried_three))]
fn quick_three(c: Curve, a: Cubic, b: Cubic) -> Option<Divisor>
    requires { Holds c (Divisor.Three a) × Holds c (Divisor.Three b) }
    ensures { Tried c (UnfitSum c (Divisor.Three a) (Divisor.Three b)) (sum (curve_of c) (pair c.prime.m (Divisor.Three a)) (pair c.prime.m (Divisor.Three b))) result }
{
    sum_genus3::add(a, b, c.f4, c.f5, c.f6, c.prime)
}

#[tactic(auto, using(crate::proofs::Quicks::twice_three))]
fn twice_three(c: Curve, a: Cubic) -> Option<Divisor>
    requires { Holds c (Divisor.Three a) }
    ensures { Tried c (UnfitDouble c (Divisor.Three a)) (sum (curve_of c) (pair c.prime.m (Divisor.Three a)) (pair c.prime.m (Divisor.Three a))) result }
{
    sum_genus3::double(a, c.f3, c.f4, c.f5, c.f6, c.prime)
}

// Both of one weight that a formula takes, or nothing to add.
#[tactic(auto, using(crate::proofs::Quicks::neutral_first))]
fn quick_sum(c: Curve, a: Divisor, b: Divisor) -> Option<Divisor>
    requires { Holds c a × Holds c b }
    ensures { Tried c (UnfitSum c a b) (sum (curve_of c) (pair c.prime.m a) (pair c.prime.m b)) result }
{
    match (a, b) {
        (Divisor::Neutral, _) => Some(b),
        (Divisor::Two(x), Divisor::Two(y)) => quick_two(c, x, y),
        (Divisor::Three(x), Divisor::Three(y)) => quick_three(c, x, y),
        _ => None,
    }
}

fn quick_double(c: Curve, a: Divisor) -> Option<Divisor>
    requires { Holds c a }
    ensures { Tried c (UnfitDouble c a) (sum (curve_of c) (pair c.prime.m a) (pair c.prime.m a)) result }
{
    match a {
        Divisor::Two(x) => twice_two(c, x),
        Divisor::Three(x) => twice_three(c, x),
        _ => None,
    }
}

// Every sum of two goes through here, every double through the next one: the formula first, and the plain sum where it has none.
pub fn sum(c: Curve, a: Divisor, b: Divisor) -> Divisor
    requires { Holds c a × Holds c b }
    ensures { Gives c result (sum (curve_of c) (pair c.prime.m a) (pair c.prime.m b)) }
{
    match quick_sum(c, a, b) {
        Some(d) => d,
        None => sum_plain::sum(c, a, b),
    }
}

pub fn double(c: Curve, a: Divisor) -> Divisor
    requires { Holds c a }
    ensures { Gives c result (double (curve_of c) (pair c.prime.m a)) }
{
    match quick_double(c, a) {
        Some(d) => d,
        None => sum_plain::double(c, a),
    }
}

pub fn opposite(c: Curve, a: Divisor) -> Divisor
    requires { Holds c a }
    ensures { Gives c result (opposite (pair c.prime.m a)) }
{
    a.opposite(c.prime.m)
}
