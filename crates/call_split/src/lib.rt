// The call inside Rattle that splits a divisor in two (W-213). Its promise is an equation with the call's rule.
#![tactic(auto)]

ghost use Rattle.std.specs.Prelude.{◌++◌};
ghost use Rattle.rules.specs.Calls.{split_call, write};
ghost use Rattle.rules.specs.Records.{divisor_bytes};
ghost use Rattle.divisor.specs.Divisors.{pair, Held};
ghost use Rattle.call_answer.specs.Answers.{Wrote};

use call_answer::read_curve_and_divisor;
use divisor::Divisor;
use field::Modulus;
use refusals::{Refusal, Refused};

// Two records, one after the other, at the front of the output; 13 where it is shorter.
#[tactic(auto, using(crate::proofs::Splits::both_none))]
fn write_both(a: Divisor, b: Divisor, m: Modulus, out: &mut [u8]) -> Result<u64, Refused>
    requires { Held m a × Held m b }
    ensures { Wrote result out.new (write out.old (divisor_bytes m.p (pair m a) ++ divisor_bytes m.p (pair m b))) }
{
    let n = record_numbers::write::record_length(a);
    let l = n + record_numbers::write::record_length(b);
    if out.len() < l {
        return Err(Refusal::OutputLength.at(0));
    }
    record_numbers::write::write_divisor(a, m, out);
    record_numbers::write::write_divisor(b, m, &mut out[n..]);
    Ok(l as u64)
}

#[tactic(auto, unfolding(rules::specs::Calls::split_call), using(crate::proofs::Splits::split_done))]
pub fn split(curve: &[u8], a: &[u8], out: &mut [u8]) -> Result<u64, Refused>
    ensures { Wrote result out.new (split_call curve.now a.now out.old) }
{
    let (c, d) = read_curve_and_divisor(curve, a)?;
    let (y, z) = divisor_split::split(d, c.prime).ok_or(Refusal::NoRoot)?;
    write_both(y, z, c.prime.m, out)
}
