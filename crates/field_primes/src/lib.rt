// The prime test of a curve record: trial division, on plain numbers.
#![tactic(auto)]

ghost use Rattle.field_primes.specs.Primes.{Decides, OddPrime};
ghost use Rattle.field_primes.specs.Wheel.{DividedFrom, Left};

// The largest prime of a record of version 1.
pub const LIMIT: u64 = 2147483647;

// And of version 2, which brings a witness for the test: 2^61 - 1.
pub const LIMIT_WITNESSED: u64 = 2305843009213693951;

// Whether one of the thirty numbers from d on divides p: of them only eight are no multiples of 2, 3 or 5.
fn divided(p: u32, d: u32) -> bool
    requires { Left p d }
    ensures { Decides result (DividedFrom p d) }
{
    if p % d == 0 {
        return true;
    }
    if p % (d + 4) == 0 {
        return true;
    }
    if p % (d + 6) == 0 {
        return true;
    }
    if p % (d + 10) == 0 {
        return true;
    }
    if p % (d + 12) == 0 {
        return true;
    }
    if p % (d + 16) == 0 {
        return true;
    }
    if p % (d + 22) == 0 {
        return true;
    }
    if p % (d + 24) == 0 {
        return true;
    }
    false
}

// Whether p is an odd prime within the limit, by trial division up to its square root: by 2, 3 and 5, and by the numbers that
// are multiples of none of them. Numbers of 32 bits, whose division is the quicker one.
pub fn is_odd_prime(p: u64) -> bool
    ensures { Decides result (OddPrime p) }
{
    if p < 3 {
        return false;
    }
    if LIMIT < p {
        return false;
    }
    if p % 2 == 0 {
        return false;
    }
    if p % 3 == 0 {
        return p == 3;
    }
    if p % 5 == 0 {
        return p == 5;
    }
    let q = p as u32;
    let mut d: u32 = 7;
    // No range: it ends at a square root, which is never computed.
    while d * d <= q {
        if divided(q, d) {
            return false;
        }
        d += 30;
    }
    true
}
