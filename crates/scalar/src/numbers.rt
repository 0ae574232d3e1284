// Numbers of up to 32 bytes, the highest byte first, as 32 bytes (W-214): divided by a number of four bytes with the remainder, and tested for being made up of listed primes.
ghost use Rattle.std.specs.Prelude.{◌≤◌, ◌<◌, ◌≡◌, length};
ghost use Rattle.field.specs.Primes.{Decides};
ghost use Rattle.rules.specs.Bytes.{number};
ghost use Rattle.rules.specs.Calls.{listed};
ghost use Rattle.field_witness.specs.Witness.{Stripped, MadeOf};
ghost use Rattle.scalar.specs.numbers.Numbers.{Capped, DividedBy};

use refusals::MOST_SCALAR;

#[derive(Clone, Copy, Debug, PartialEq, Eq)]
pub struct Divided {
    pub quotient: [u8; MOST_SCALAR],
    pub remainder: u64,
}

// The number of some bytes, with leading zeros.
pub fn from_bytes(s: &[u8]) -> [u8; MOST_SCALAR]
    requires { length s.now ≤ 32 }
    ensures { number result ≡ number s.now }
{
    let mut n: [u8; MOST_SCALAR] = [0; MOST_SCALAR];
    let from = MOST_SCALAR - s.len();
    for k in 0..s.len() {
        n[from + k] = s[k];
    }
    n
}

// n where it is below 256.
pub fn capped(n: [u8; MOST_SCALAR]) -> Option<u64>
    ensures { Capped (number n) result }
{
    let mut t: u64 = 0;
    for k in 0..MOST_SCALAR {
        if t != 0 {
            return None;
        }
        t = record_bytes::wide(n[k]);
    }
    Some(t)
}

// From the highest byte to the lowest: what is left of those above goes on into the next.
pub fn divide(n: [u8; MOST_SCALAR], q: u64) -> Divided
    requires { (0 < q) × (q < 4294967296) }
    ensures { DividedBy (number n) q result }
{
    let mut quotient: [u8; MOST_SCALAR] = [0; MOST_SCALAR];
    let mut left: u64 = 0;
    for k in 0..MOST_SCALAR {
        let t = left * 256 + record_bytes::wide(n[k]);
        quotient[k] = (t / q) as u8;
        left = t % q;
    }
    Divided {
        quotient,
        remainder: left,
    }
}

// n divided by q as often as it goes.
fn without(n: [u8; MOST_SCALAR], q: u64) -> [u8; MOST_SCALAR]
    requires { (0 < number n) × ((1 < q) × (q < 4294967296)) }
    ensures { Stripped (number n) q (number result) }
{
    let mut k = n;
    // No range: how often q goes is what is looked for.
    loop {
        let d = divide(k, q);
        if d.remainder != 0 {
            return k;
        }
        k = d.quotient;
    }
}

// Whether n is made up of powers of just the listed primes, 4 bytes each, which are below 2^31 and rise, each of them dividing it.
pub fn is_made_of(n: [u8; MOST_SCALAR], primes: &[u8]) -> bool
    requires { 0 < number n }
    ensures { Decides result (MadeOf (number n) (listed primes.now)) }
{
    let mut left = n;
    let mut last: u64 = 0;
    for i in 0..primes.len() / 4 {
        let x = record_bytes::read32(primes, 4 * i);
        if x <= last {
            return false;
        }
        if !field_witness::is_small_prime(x) {
            return false;
        }
        let d = divide(left, x);
        if d.remainder != 0 {
            return false;
        }
        // An array that a call answers takes a place of its own before it takes the place of one that the loop carries.
        let rest = without(left, x);
        left = rest;
        last = x;
    }
    capped(left) == Some(1)
}
