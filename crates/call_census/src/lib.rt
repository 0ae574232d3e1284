// The call inside Rattle that answers the next divisor of a training curve (W-211), and what it reads: a curve whose p is at most 13. Promises are equations with the call's rule.
#![tactic(auto)]

ghost use Rattle.rules.specs.Calls.{next_call};
ghost use Rattle.call_answer.specs.Answers.{Makes, Wrote};
ghost use Rattle.call_census.specs.Training.{TrainingIs, next_rule};

use call_answer::{deliver, read_divisor};
use curve::Curve;
use divisor::Divisor;
use field::Modulus;
use refusals::{Refusal, Refused};

pub fn read_training(s: &[u8]) -> Result<Curve, Refusal>
    ensures { TrainingIs s.now result }
{
    let c = record_curve::read_curve(s)?;
    if refusals::LARGEST_TRAINING < c.prime.m.number() {
        return Err(Refusal::NotForTraining);
    }
    Ok(c)
}

// The next one, or 24.
fn next_of(curve: &[u8], divisor: &[u8]) -> Result<(Divisor, Modulus), Refused>
    ensures { Makes result (next_rule curve.now divisor.now) }
{
    let c = read_training(curve)?;
    let d = read_divisor(c, 1, divisor)?;
    let y = divisor_census::next_valid(c, d).ok_or(Refusal::Last)?;
    Ok((y, c.prime.m))
}

#[tactic(auto, unfolding(rules::specs::Calls::next_call))]
pub fn next_divisor(curve: &[u8], divisor: &[u8], out: &mut [u8]) -> Result<u64, Refused>
    ensures { Wrote result out.new (next_call curve.now divisor.now out.old) }
{
    deliver(next_of(curve, divisor), out)
}
