// The sum of two divisors in two parts, with the inverse between them left to the caller, so that sums side by side can share one. Where no formula is taken
// nothing is opened, nothing is to be inverted, and the second part is the sum as it always was.
ghost use Rattle.rules.specs.Sum.{sum};
ghost use Rattle.divisor.specs.Divisors.{pair};
ghost use Rattle.curve.specs.Curves.{curve_of, Holds, Gives};
ghost use Rattle.sum_lanes.specs.openings.Openings.{is_two, is_three, Fit, Undoes, Opened, Under};
ghost use Rattle.sum_lanes.specs.declared.openings.Opening.TheVariants.{ByTwo, ByThree};

use curve::Curve;
use divisor::{Cubic, Divisor, Quadratic};
use field::{PrimeModulus, Residue};
use sum_formulas::Condition;

// What stands before the division.
#[derive(Clone, Copy)]
pub enum Opening {
    Special,
    ByTwo(sum_genus2::Opened),
    ByThree(sum_genus3_open::Opened),
}

// In genus 2 s' of lower degree isn't opened: it has an inverse of its own.
fn open_two(c: Curve, a: Quadratic, b: Quadratic) -> Opening
    requires { Holds c (Divisor.Two a) × Holds c (Divisor.Two b) }
    ensures { Opened c (Divisor.Two a) (Divisor.Two b) result }
{
    if c.g != 2 {
        return Opening::Special;
    }
    let o = sum_genus2::chord(a, b, c.prime);
    match sum_formulas::look(o.r, o.s.c1, c.prime.m) {
        Condition::Special => Opening::Special,
        Condition::Flat => Opening::Special,
        Condition::Main => Opening::ByTwo(o),
    }
}

fn open_three(c: Curve, a: Cubic, b: Cubic) -> Opening
    requires { Holds c (Divisor.Three a) × Holds c (Divisor.Three b) }
    ensures { Opened c (Divisor.Three a) (Divisor.Three b) result }
{
    let o = sum_genus3_open::chord(a, b, c.prime);
    match sum_formulas::look(o.r, o.s.c2, c.prime.m) {
        Condition::Special => Opening::Special,
        Condition::Flat => Opening::Special,
        Condition::Main => Opening::ByThree(o),
    }
}

pub fn open(c: Curve, a: Divisor, b: Divisor) -> Opening
    requires { Holds c a × Holds c b }
    ensures { Opened c a b result }
{
    match (a, b) {
        (Divisor::Two(x), Divisor::Two(y)) => open_two(c, x, y),
        (Divisor::Three(x), Divisor::Three(y)) => open_three(c, x, y),
        _ => Opening::Special,
    }
}

// What is to be inverted: 1 where nothing was opened.
pub fn under(o: Opening, prime: PrimeModulus) -> Residue
    requires { Fit prime.m o }
    ensures { Under prime.m o result }
{
    let m = prime.m;
    match o {
        Opening::Special => Residue::one(m),
        Opening::ByTwo(x) => x.r.mul(x.s.c1, m),
        Opening::ByThree(x) => x.r.mul(x.s.c2, m),
    }
}

fn close_two(c: Curve, a: Divisor, b: Divisor, o: sum_genus2::Opened, i: Residue) -> Divisor
    requires { Holds c a × (Holds c b × (is_two c a b o × (Fit c.prime.m (ByTwo o) × Undoes c.prime.m (ByTwo o) i))) }
    ensures { Gives c result (sum (curve_of c) (pair c.prime.m a) (pair c.prime.m b)) }
{
    match (a, b) {
        (Divisor::Two(x), Divisor::Two(y)) => Divisor::Two(sum_genus2::close(
            x, y, o, i, c.f4, c.prime.m,
        )),
        _ => jacobian::sum(c, a, b),
    }
}

fn close_three(c: Curve, a: Divisor, b: Divisor, o: sum_genus3_open::Opened, i: Residue) -> Divisor
    requires { Holds c a × (Holds c b × (is_three c a b o × (Fit c.prime.m (ByThree o) × Undoes c.prime.m (ByThree o) i))) }
    ensures { Gives c result (sum (curve_of c) (pair c.prime.m a) (pair c.prime.m b)) }
{
    match (a, b) {
        (Divisor::Three(x), Divisor::Three(y)) => Divisor::Three(sum_genus3::close(
            x, y, o, i, c.f4, c.f5, c.f6, c.prime.m,
        )),
        _ => jacobian::sum(c, a, b),
    }
}

// The sum, i being 1 over what was to be inverted.
pub fn close(c: Curve, a: Divisor, b: Divisor, o: Opening, i: Residue) -> Divisor
    requires { Holds c a × (Holds c b × (Opened c a b o × Undoes c.prime.m o i)) }
    ensures { Gives c result (sum (curve_of c) (pair c.prime.m a) (pair c.prime.m b)) }
{
    match o {
        Opening::Special => jacobian::sum(c, a, b),
        Opening::ByTwo(x) => close_two(c, a, b, x, i),
        Opening::ByThree(x) => close_three(c, a, b, x, i),
    }
}
