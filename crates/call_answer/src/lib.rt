// The calls inside Rattle, in the shape of document 01: records in as bytes, each checked here and once; a `Result` out, and what is made at the
// front of the output. Every promise is an equation with the call's rule. Here: what reads and what writes, the checks and the rewrites.
#![tactic(auto)]

ghost use Rattle.std.specs.Prelude.{◌≤◌, length};
ghost use Rattle.rules.specs.Calls.{check_curve, check_divisor, rewrite_curve, rewrite_divisor};
ghost use Rattle.call_answer.specs.Answers.{ReadIs, RecordIs, OneIs, CheckIs, AllHeld, Makes, Delivered, Wrote, same_divisor};

use curve::Curve;
use divisor::Divisor;
use field::Modulus;
use refusals::{Refusal, Refused};

// The divisor record that is the whole of a, at its place.
pub fn read_divisor(c: Curve, place: u64, a: &[u8]) -> Result<Divisor, Refused>
    ensures { ReadIs c place a.now result }
{
    record_divisor::divisor_at(c, true, a, 0).map_err(|by| by.at(place))
}

// The divisor record at a of a batch, whatever follows it, at its place.
pub fn record_at(c: Curve, s: &[u8], a: usize, place: u64) -> Result<Divisor, Refused>
    requires { a ≤ length s.now }
    ensures { RecordIs c s.now a place result }
{
    record_divisor::divisor_at(c, false, s, a).map_err(|by| by.at(place))
}

pub fn read_curve_and_divisor(curve: &[u8], a: &[u8]) -> Result<(Curve, Divisor), Refused>
    ensures { OneIs curve.now a.now result }
{
    let c = record_curve::read_curve(curve)?;
    let x = read_divisor(c, 1, a)?;
    Ok((c, x))
}

// What was made at the front of the output, and its length there: refused where the output is shorter. A refusal is handed on, and leaves it as it is.
#[tactic(auto, using(crate::proofs::Written::deliver_short, crate::proofs::Written::deliver_whole))]
pub fn deliver(made: Result<(Divisor, Modulus), Refused>, out: &mut [u8]) -> Result<u64, Refused>
    requires { AllHeld made }
    ensures { Delivered made out.old result out.new }
{
    let (d, m) = made?;
    let n = record_numbers::write::record_length(d);
    if out.len() < n {
        return Err(Refusal::OutputLength.at(0));
    }
    record_numbers::write::write_divisor(d, m, out);
    Ok(n as u64)
}

#[tactic(auto, unfolding(rules::specs::Calls::check_curve))]
pub fn check_curve(curve: &[u8]) -> Result<(), Refused>
    ensures { CheckIs result (check_curve curve.now) }
{
    record_curve::read_curve(curve)?;
    Ok(())
}

#[tactic(auto, unfolding(rules::specs::Calls::check_divisor))]
pub fn check_divisor(curve: &[u8], a: &[u8]) -> Result<(), Refused>
    ensures { CheckIs result (check_divisor curve.now a.now) }
{
    read_curve_and_divisor(curve, a)?;
    Ok(())
}

// What was read and checked is written as it stood.
#[tactic(auto, unfolding(rules::specs::Calls::rewrite_curve))]
pub fn rewrite_curve(curve: &[u8], out: &mut [u8]) -> Result<u64, Refused>
    ensures { Wrote result out.new (rewrite_curve curve.now out.old) }
{
    record_curve::read_curve(curve)?;
    if out.len() < curve.len() {
        return Err(Refusal::OutputLength.at(0));
    }
    record_bytes::write_bytes(out, 0, curve);
    Ok(curve.len() as u64)
}

fn read_again(curve: &[u8], a: &[u8]) -> Result<(Divisor, Modulus), Refused>
    ensures { Makes result (same_divisor curve.now a.now) }
{
    let (c, x) = read_curve_and_divisor(curve, a)?;
    Ok((x, c.prime.m))
}

#[tactic(auto, unfolding(rules::specs::Calls::rewrite_divisor))]
pub fn rewrite_divisor(curve: &[u8], a: &[u8], out: &mut [u8]) -> Result<u64, Refused>
    ensures { Wrote result out.new (rewrite_divisor curve.now a.now out.old) }
{
    deliver(read_again(curve, a), out)
}
