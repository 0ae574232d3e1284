// What every multiplication reads, checks, makes and writes, whichever the engine: the call but for the multiple itself.
ghost use Rattle.std.specs.Prelude.{◌≡◌};
ghost use Rattle.rules.specs.Calls.{put};
ghost use Rattle.divisor.specs.Divisors.{Held};
ghost use Rattle.call_multiply.specs.factors.Multiples.{FactorsIs, MultipleIs, KeyIs, key_result, multiple_result};

use crate::Multiplied;
use curve::Curve;
use divisor::Divisor;
use field::Modulus;
use multiple_affine::promise::Multiple;
use refusals::{Refusal, Refused};

// Number 12 where the scalar is too long, then 19 where the divisor is neutral.
#[tactic(auto, using(crate::proofs::factors::Multiples::factors_empty, crate::proofs::factors::Multiples::factors_taken))]
pub fn read_factors(curve: &[u8], a: &[u8], scalar: &[u8]) -> Result<(Curve, Divisor), Refused>
    ensures { FactorsIs curve.now a.now scalar.now result }
{
    let (c, d) = call_answer::read_curve_and_divisor(curve, a)?;
    if refusals::MOST_SCALAR < scalar.len() {
        return Err(Refusal::ScalarLength.at(0));
    }
    if d.weight() == 0 {
        return Err(Refusal::EmptyKey.at(0));
    }
    Ok((c, d))
}

// A multiple with its doublings and additions: number 19 where it is neutral.
#[tactic(auto, using(crate::proofs::factors::Multiples::key_empty, crate::proofs::factors::Multiples::key_made))]
pub fn key_of(y: Multiple, m: Modulus) -> Result<Multiple, Refused>
    requires { Held m y.divisor }
    ensures { KeyIs m result (key_result y m) }
{
    if y.divisor.weight() == 0 {
        return Err(Refusal::EmptyKey.at(0));
    }
    Ok(y)
}

// A multiple at the front of the output, its length there and its counts.
pub fn deliver(y: Multiple, m: Modulus, out: &mut [u8]) -> Result<Multiplied, Refused>
    requires { Held m y.divisor }
    ensures { MultipleIs result out.new (put (0, 0) out.old (multiple_result y m)) }
{
    let length = call_answer::deliver(Ok((y.divisor, m)), out)?;
    Ok(Multiplied {
        length,
        doublings: y.doublings,
        additions: y.additions,
    })
}
