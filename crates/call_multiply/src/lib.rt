// The calls inside Rattle that multiply, by either engine. Their promise is the equation with the call's rule.
#![tactic(auto)]

ghost use Rattle.rules.specs.Bytes.{number};
ghost use Rattle.rules.specs.Calls.{multiply_call};
ghost use Rattle.multiple_affine.specs.promise.Contracts.{ToMultiply, Multiplied as IsMultiple};
ghost use Rattle.call_multiply.specs.factors.Multiples.{MultipleIs, MultipleMade, multiplying};

use curve::Curve;
use divisor::Divisor;
use multiple_affine::promise::Multiple;
use refusals::Refused;

pub mod factors;
pub mod order;

// What a multiplication answers beside the output: the length there, and the counts of its steps.
#[derive(Clone, Copy, Debug, PartialEq, Eq)]
pub struct Multiplied {
    pub length: u64,
    pub doublings: u64,
    pub additions: u64,
}

// The engine that takes fewer instructions (docs/BENCH.md): in genus 2 the one without inversions.
pub fn quicker(c: Curve, a: Divisor, s: &[u8]) -> Multiple
    requires { ToMultiply c a s.now }
    ensures { IsMultiple c a (number s.now) result }
{
    if c.g == 2 {
        return multiple::by_tuples(c, a, s);
    }
    multiple_affine::affine(c, a, s)
}

// What the call makes, before it is delivered.
#[tactic(auto, using(crate::proofs::factors::Multiples::multiply_taken, crate::proofs::factors::Multiples::multiply_stopped))]
fn made(curve: &[u8], a: &[u8], scalar: &[u8]) -> Result<(Curve, Multiple), Refused>
    ensures { MultipleMade result (multiplying curve.now a.now scalar.now) }
{
    let (c, d) = factors::read_factors(curve, a, scalar)?;
    let y = factors::key_of(quicker(c, d, scalar), c.prime.m)?;
    Ok((c, y))
}

#[tactic(auto, unfolding(rules::specs::Calls::multiply_call))]
pub fn multiply(
    curve: &[u8],
    a: &[u8],
    scalar: &[u8],
    out: &mut [u8],
) -> Result<Multiplied, Refused>
    ensures { MultipleIs result out.new (multiply_call curve.now a.now scalar.now out.old) }
{
    let (c, y) = made(curve, a, scalar)?;
    factors::deliver(y, c.prime.m, out)
}

// The same by the second engine: three lines, where an engine handed in would bring its law with it.
#[tactic(auto, using(crate::proofs::factors::Multiples::multiply_taken, crate::proofs::factors::Multiples::multiply_stopped))]
fn made_free(curve: &[u8], a: &[u8], scalar: &[u8]) -> Result<(Curve, Multiple), Refused>
    ensures { MultipleMade result (multiplying curve.now a.now scalar.now) }
{
    let (c, d) = factors::read_factors(curve, a, scalar)?;
    let y = factors::key_of(multiple::by_tuples(c, d, scalar), c.prime.m)?;
    Ok((c, y))
}

#[tactic(auto, unfolding(rules::specs::Calls::multiply_call))]
pub fn multiply_inversion_free(
    curve: &[u8],
    a: &[u8],
    scalar: &[u8],
    out: &mut [u8],
) -> Result<Multiplied, Refused>
    ensures { MultipleIs result out.new (multiply_call curve.now a.now scalar.now out.old) }
{
    let (c, y) = made_free(curve, a, scalar)?;
    factors::deliver(y, c.prime.m, out)
}
