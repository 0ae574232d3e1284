// A scan into the running total, by value: the total's own divisor is checked on the curve given, then the pole's four bytes, then the record behind them.
#![tactic(auto)]

ghost use Rattle.std.specs.Prelude.{◌≡◌};
ghost use Rattle.rules.specs.Calls.{scan_call, scan_on};
ghost use Rattle.curve.specs.Record.{record_of};
ghost use Rattle.scan_record.specs.Scans.{running_of, scanned_of};

use curve::Curve;
use refusals::{Refusal, Refused};
use scan_total::Running;

pub mod flat;
pub mod lent;

// On a curve that was taken: the total after.
pub fn scan_on(c: Curve, t: Running, record: &[u8]) -> Result<Running, Refused>
    ensures { scanned_of t result ≡ scan_on (record_of c) (running_of t) «record».now }
{
    let total = scan_total::resume::take_up(c, t.divisor, t.count)?;
    if record.len() < 4 {
        return Err(Refusal::DivisorLength.at(1));
    }
    let pole = record_bytes::read32(record, 0);
    let own = t.pole as u64;
    if pole != own {
        return Err(Refusal::OtherPole.at(0));
    }
    let d = call_answer::read_divisor(c, 1, &record[4..])?;
    Ok(t.take(c, total, d))
}

pub fn scan(t: Running, curve: &[u8], record: &[u8]) -> Result<Running, Refused>
    ensures { scanned_of t result ≡ scan_call (running_of t) curve.now «record».now }
{
    let c = record_curve::read_curve(curve)?;
    scan_on(c, t, record)
}
