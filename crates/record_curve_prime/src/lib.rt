// p of a curve record whose first checks passed, as a modulus: in version 1 by trial division (refusal 5), in version 2 by the record's witness (5, then 18).
#![tactic(auto)]

ghost use Rattle.std.specs.Prelude.{◌≡◌, ◌+◌, ◌*◌, ◌≤◌, length, take};
ghost use Rattle.rules.specs.Bytes.{words};
ghost use Rattle.rules.specs.Records.{version_of};
ghost use Rattle.field.specs.Constants.{Odd};
ghost use Rattle.field.specs.Primes.{Decides};
ghost use Rattle.record_curve_head.specs.Heads.{Headed};
ghost use Rattle.record_curve_prime.specs.Primes.{PrimeIs};

use curve::Curve;
use field::{Modulus, PrimeModulus};
use refusals::{MOST_WITNESS, Refusal};

fn by_trial(s: &[u8]) -> Result<PrimeModulus, Refusal>
    requires { Headed s.now × (version_of s.now ≡ 1) }
    ensures { PrimeIs s.now result }
{
    Modulus::read(record_bytes::read64(s, Curve::PRIME_AT)).ok_or(Refusal::Prime)
}

// What p may be in version 2.
fn is_odd_number(p: u64) -> bool
    ensures { Decides result (Odd p) }
{
    if p < 3 {
        return false;
    }
    if field_primes::LIMIT_WITNESSED < p {
        return false;
    }
    if p % 2 == 0 {
        return false;
    }
    true
}

// k numbers in a row from byte a on, and zeros behind them.
fn listed(s: &[u8], a: usize, k: usize) -> [u64; MOST_WITNESS]
    requires { (k ≤ 15) × (a + 8 * k ≤ length s.now) }
    ensures { take k result ≡ words s.now a k }
{
    let mut q: [u64; MOST_WITNESS] = [0; MOST_WITNESS];
    for i in 0..k {
        q[i] = record_bytes::read64(s, a + 8 * i);
    }
    q
}

fn by_witness(s: &[u8]) -> Result<PrimeModulus, Refusal>
    requires { Headed s.now × (version_of s.now ≡ 1 → ⊥) }
    ensures { PrimeIs s.now result }
{
    let p = record_bytes::read64(s, Curve::PRIME_AT);
    if !is_odd_number(p) {
        return Err(Refusal::Prime);
    }
    let g = record_bytes::wide(s[Curve::GENUS_AT]) as usize;
    let k = record_bytes::wide(s[30 + 16 * g]) as usize;
    let a = record_bytes::read64(s, 22 + 16 * g);
    if a < 1 {
        return Err(Refusal::Witness);
    }
    let q = listed(s, 31 + 16 * g, k);
    if !field_witness::accepts(p, a, &q[..k]) {
        return Err(Refusal::Witness);
    }
    Ok(PrimeModulus { m: Modulus::of(p) })
}

pub fn read_prime(s: &[u8]) -> Result<PrimeModulus, Refusal>
    requires { Headed s.now }
    ensures { PrimeIs s.now result }
{
    if record_bytes::wide(s[4]) == Curve::VERSION {
        return by_trial(s);
    }
    by_witness(s)
}
