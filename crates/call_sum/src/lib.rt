// The calls inside Rattle that make a divisor out of those they read: double, opposite, add. Every promise is an equation with the call's rule.
#![tactic(auto)]

ghost use Rattle.rules.specs.Calls.{double_call, opposite_call, add_call};
ghost use Rattle.call_answer.specs.Answers.{Makes, Wrote};
ghost use Rattle.call_sum.specs.Sums.{doubling, opposing, adding};

use call_answer::{deliver, read_curve_and_divisor, read_divisor};
use divisor::Divisor;
use field::Modulus;
use refusals::Refused;

fn doubled(curve: &[u8], a: &[u8]) -> Result<(Divisor, Modulus), Refused>
    ensures { Makes result (doubling curve.now a.now) }
{
    let (c, x) = read_curve_and_divisor(curve, a)?;
    Ok((jacobian::double(c, x), c.prime.m))
}

#[tactic(auto, unfolding(rules::specs::Calls::double_call))]
pub fn double(curve: &[u8], a: &[u8], out: &mut [u8]) -> Result<u64, Refused>
    ensures { Wrote result out.new (double_call curve.now a.now out.old) }
{
    deliver(doubled(curve, a), out)
}

fn opposed(curve: &[u8], a: &[u8]) -> Result<(Divisor, Modulus), Refused>
    ensures { Makes result (opposing curve.now a.now) }
{
    let (c, x) = read_curve_and_divisor(curve, a)?;
    Ok((jacobian::opposite(c, x), c.prime.m))
}

#[tactic(auto, unfolding(rules::specs::Calls::opposite_call))]
pub fn opposite(curve: &[u8], a: &[u8], out: &mut [u8]) -> Result<u64, Refused>
    ensures { Wrote result out.new (opposite_call curve.now a.now out.old) }
{
    deliver(opposed(curve, a), out)
}

fn added(curve: &[u8], a: &[u8], b: &[u8]) -> Result<(Divisor, Modulus), Refused>
    ensures { Makes result (adding curve.now a.now b.now) }
{
    let (c, x) = read_curve_and_divisor(curve, a)?;
    let y = read_divisor(c, 2, b)?;
    Ok((jacobian::sum(c, x, y), c.prime.m))
}

#[tactic(auto, unfolding(rules::specs::Calls::add_call))]
pub fn add(curve: &[u8], a: &[u8], b: &[u8], out: &mut [u8]) -> Result<u64, Refused>
    ensures { Wrote result out.new (add_call curve.now a.now b.now out.old) }
{
    deliver(added(curve, a, b), out)
}
