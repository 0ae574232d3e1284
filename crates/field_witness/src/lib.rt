// A prime by its witness (W-201): a base a, and the primes that p - 1 is made of. What is accepted is prime, by Lucas' test (crate `orders`). Nothing is known of p beforehand but that it is odd: powers
// modulo it are those of a ring.
#![tactic(auto)]

ghost use Rattle.std.specs.Prelude.{◌<◌, ◌≡◌};
ghost use Rattle.algebra.proofs.Zmod.Zmod.{zmod};
ghost use Rattle.field.specs.Constants.{Odd};
ghost use Rattle.field.specs.Primes.{Decides};
ghost use Rattle.field.specs.Residues.{el, Kept};
ghost use Rattle.field_witness.specs.Witness.{SmallPrime, Stripped, MadeOf, AllSome, NoneBelow, Witnessed};

use field::{Modulus, Residue};

// Whether q is a prime below 2^31.
pub fn is_small_prime(q: u64) -> bool
    ensures { Decides result (SmallPrime q) }
{
    if q == 2 {
        return true;
    }
    field_primes::is_odd_prime(q)
}

// n divided by q as often as it goes.
fn without(n: u64, q: u64) -> u64
    requires { (0 < n) × (1 < q) }
    ensures { Stripped n q result }
{
    let mut k = n;
    // No range: how often q goes is what is looked for.
    while k % q == 0 {
        k = k / q;
    }
    k
}

// Whether n is made up of powers of just those listed, primes below 2^31 that rise, each of them dividing it.
fn is_made_of(n: u64, q: &[u64]) -> bool
    requires { 0 < n }
    ensures { Decides result (MadeOf n q.now) }
{
    let mut left = n;
    let mut last: u64 = 0;
    for i in 0..q.len() {
        let x = q[i];
        if x <= last {
            return false;
        }
        if !is_small_prime(x) {
            return false;
        }
        if left % x != 0 {
            return false;
        }
        left = without(left, x);
        last = x;
    }
    left == 1
}

// Whether no power of a by n / q is 1, for each q listed.
fn is_none_below(a: Residue, n: u64, q: &[u64], m: Modulus) -> bool
    requires { Kept m a × AllSome q.now }
    ensures { NoneBelow m a n q.now result }
{
    for j in 0..q.len() {
        if a.power(n / q[j], m).is_one(m) {
            return false;
        }
    }
    true
}

// Whether a and the listed numbers witness that p is prime.
pub fn accepts(p: u64, a: u64, q: &[u64]) -> bool
    requires { Odd p }
    ensures { Decides result (Witnessed p a q.now) }
{
    let n = p - 1;
    if !is_made_of(n, q) {
        return false;
    }
    let m = Modulus::of(p);
    match Residue::read(a, m) {
        Some(x) => {
            if !x.power(n, m).is_one(m) {
                return false;
            }
            is_none_below(x, n, q, m)
        }
        None => false,
    }
}
