// A curve y * y = f(x), and which divisors stand on it. No polynomial is made: a divisor's u divides f - v * v just where the rest, found coefficient by coefficient
// from the top, is zero.
#![tactic(auto)]

ghost use Rattle.std.specs.Prelude.{[], ◌∷◌};
ghost use Rattle.rules.specs.Curve.{SquareFree};
ghost use Rattle.divisor.specs.Divisors.{AllSettled};
ghost use Rattle.curve.specs.Equations.{IsGenus, equation, square_free-prop};

use divisor::Divisor;
use field::{PrimeModulus, Residue};

pub mod division;
pub mod polynomials;
mod remainder;

// y * y = f(x) before it is known whether f has a repeated factor: f without its leading 1. In genus 2 there is no f5 and no f6: they are zero, and not looked at.
#[derive(Clone, Copy)]
pub struct Equation {
    pub prime: PrimeModulus,
    pub g: usize,
    pub f0: Residue,
    pub f1: Residue,
    pub f2: Residue,
    pub f3: Residue,
    pub f4: Residue,
    pub f5: Residue,
    pub f6: Residue,
    pub ghost genus: { IsGenus g },
    pub ghost settled: { AllSettled prime.m (f0 ∷ f1 ∷ f2 ∷ f3 ∷ f4 ∷ f5 ∷ f6 ∷ []) },
}

// An equation whose f has none.
#[derive(Clone, Copy)]
pub struct Curve {
    pub prime: PrimeModulus,
    pub g: usize,
    pub f0: Residue,
    pub f1: Residue,
    pub f2: Residue,
    pub f3: Residue,
    pub f4: Residue,
    pub f5: Residue,
    pub f6: Residue,
    pub ghost genus: { IsGenus g },
    pub ghost settled: { AllSettled prime.m (f0 ∷ f1 ∷ f2 ∷ f3 ∷ f4 ∷ f5 ∷ f6 ∷ []) },
    pub ghost square_free: { SquareFree (equation prime.m g f0 f1 f2 f3 f4 f5 f6) } by { square_free-prop (equation prime.m g f0 f1 f2 f3 f4 f5 f6) },
}

impl Curve {
    ghost use Rattle.std.specs.Prelude.{◌≡◌, ◌≤◌};
    ghost use Rattle.field.specs.Primes.{Decides};
    ghost use Rattle.divisor.specs.Divisors.{Held, weight_of};
    ghost use Rattle.curve.specs.Curves.{Divided, equation_of};

    // The mark and the version of its record.
    pub const MARK: [u8; 3] = [72, 74, 67];

    pub const VERSION: u64 = 1;
    // With a witness that p is prime.
    pub const VERSION_WITNESSED: u64 = 2;

    // Where g, p, f_0 and f_5 stand in it.
    pub const GENUS_AT: usize = 5;

    pub const PRIME_AT: usize = 6;

    pub const LOW_AT: usize = 14;

    pub const HIGH_AT: usize = 54;

    pub fn equation(self) -> Equation
        ensures { result ≡ equation_of self }
    {
        Equation {
            prime: self.prime,
            g: self.g,
            f0: self.f0,
            f1: self.f1,
            f2: self.f2,
            f3: self.f3,
            f4: self.f4,
            f5: self.f5,
            f6: self.f6,
        }
    }

    // Whether u divides f - v * v.
    pub fn contains(self, d: Divisor) -> bool
        requires { Held self.prime.m d × (weight_of d ≤ self.g) }
        ensures { Decides result (Divided self d) }
    {
        let m = self.prime.m;
        match d {
            Divisor::Neutral => true,
            Divisor::One(x) => division::is_none(remainder::rest_one(self, x), m),
            Divisor::Two(x) => division::is_none_two(remainder::rest_two(self, x), m),
            Divisor::Three(x) => division::is_none_three(remainder::rest_three(self, x), m),
        }
    }
}
