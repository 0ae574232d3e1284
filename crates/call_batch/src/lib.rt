// A batch checked and counted: a curve and records one after the other, nothing added up and nothing written.
#![tactic(auto)]

ghost use Rattle.call_batch.specs.Counts.{CountedIs, BatchIs};

use curve::Curve;
use refusals::{Refusal, Refused};

pub mod places;
pub mod repeat;

// How many records stand on a curve that was taken.
fn count_on(c: Curve, s: &[u8]) -> Result<u64, Refused>
    ensures { CountedIs c s.now result }
{
    let mut k: u64 = 0;
    let mut a: usize = 0;
    // No range: each record says how long it is.
    while a < s.len() {
        if k == refusals::MOST_COUNT {
            return Err(Refusal::Full.at(0));
        }
        call_answer::record_at(c, s, a, k + 1)?;
        a = a + 1 + 16 * (record_bytes::wide(s[a]) as usize);
        k += 1;
    }
    Ok(k)
}

#[tactic(auto, unfolding(rules::specs::Calls::check_batch))]
pub fn check_batch(curve: &[u8], batch: &[u8]) -> Result<u64, Refused>
    ensures { BatchIs curve.now batch.now result }
{
    let c = record_curve::read_curve(curve)?;
    count_on(c, batch)
}
