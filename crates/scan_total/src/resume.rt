// A running total's divisor taken up again on the curve given: its weight, its range, that it stands on the curve, and its count.
ghost use Rattle.field.specs.Primes.{Decides};
ghost use Rattle.scan_total.specs.numbers.Plain.{AllIn};
ghost use Rattle.scan_total.specs.resume.Resumes.{ResumeIs};

use curve::Curve;
use divisor::Divisor;
use field::Modulus;
use refusals::Refusal;

// Whether every coefficient is a residue of m: they may have been kept under another curve.
pub fn in_range(d: Divisor, m: Modulus) -> bool
    ensures { Decides result (AllIn m d) }
{
    let r = d.row();
    for k in 0..2 * d.weight() {
        if !r[k].in_range(m) {
            return false;
        }
    }
    true
}

// A total's divisor taken up again; or 15 or 14, where it can't go on.
pub fn take_up(c: Curve, d: Divisor, count: u64) -> Result<Divisor, Refusal>
    ensures { ResumeIs c d count result }
{
    let g = c.g;
    if g < d.weight() || !in_range(d, c.prime.m) {
        return Err(Refusal::RunningTotal);
    }
    let x = crate::numbers::residues_of(d, c.prime.m);
    let too_many = refusals::MOST_COUNT < count;
    if !c.contains(x) || too_many {
        return Err(Refusal::RunningTotal);
    }
    if count == refusals::MOST_COUNT {
        return Err(Refusal::Full);
    }
    Ok(x)
}
