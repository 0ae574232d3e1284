// The total of a batch: records one after the other, read in one pass. The sums are kept as values, sixteen side by side, and written once.
#![tactic(auto)]

ghost use Rattle.rules.specs.Calls.{total_call};
ghost use Rattle.call_total.specs.Totals.{TotalIs, TotalAnswerIs};

use curve::Curve;
use divisor::Divisor;
use field::Residue;
use refusals::{Refusal, Refused};
use sum_lanes::{LANES, Waiting};

// The total of a batch and how many records it has.
#[derive(Clone, Copy)]
pub struct Total {
    pub divisor: Divisor,
    pub count: u64,
}

// A total that is written: its length in the output and how many records it has.
#[derive(Clone, Copy, Debug, PartialEq, Eq)]
pub struct Totalled {
    pub length: u64,
    pub count: u64,
}

// Record i goes to lane i modulo 16. Where one waits for each lane, all sixteen are added with one inverse between them; the lanes, and those that still wait, are
// added up at the end. That this is the total from first to last is demand 3.
pub fn total_on(c: Curve, s: &[u8]) -> Result<Total, Refused>
    ensures { TotalIs c s.now result }
{
    let m = c.prime.m;
    let one = Residue::one(m);
    let mut sums = [Divisor::neutral(); LANES];
    let mut next = [sum_lanes::nobody(one); LANES];
    let mut all = one;
    // By a name of its own, which proofs cite.
    let most = refusals::MOST_COUNT;
    let mut n: usize = 0;
    let mut k: u64 = 0;
    let mut a: usize = 0;
    // No range: each record says how long it is.
    while a < s.len() {
        if k == most {
            return Err(Refusal::Full.at(0));
        }
        let d = call_answer::record_at(c, s, a, k + 1)?;
        let o = sum_lanes::openings::open(c, sums[n], d);
        let f = sum_lanes::openings::under(o, c.prime);
        next[n] = Waiting {
            d: d,
            o: o,
            f: f,
            before: all,
        };
        all = all.mul(f, m);
        a = a + 1 + 16 * (record_bytes::wide(s[a]) as usize);
        k += 1;
        n += 1;
        if n == LANES {
            let mut back = all.inverse(c.prime);
            // Down through n itself, which the records after these count up again.
            while 0 < n {
                n -= 1;
                let w = next[n];
                let i = back.mul(w.before, m);
                sums[n] = sum_lanes::openings::close(c, sums[n], w.d, w.o, i);
                back = back.mul(w.f, m);
            }
            all = one;
        }
    }
    let x = sum_lanes::waiting_total(c, next, n);
    let y = sum_lanes::lane_total(c, sums);
    Ok(Total {
        divisor: jacobian::sum(c, x, y),
        count: k,
    })
}

// Its own number is the count of records.
pub fn total_batch(curve: &[u8], batch: &[u8], out: &mut [u8]) -> Result<Totalled, Refused>
    ensures { TotalAnswerIs result out.new (total_call curve.now batch.now out.old) }
{
    let c = record_curve::read_curve(curve)?;
    let t = total_on(c, batch)?;
    let length = call_answer::deliver(Ok((t.divisor, c.prime.m)), out)?;
    Ok(Totalled {
        length,
        count: t.count,
    })
}
