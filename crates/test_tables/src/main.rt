// Prints sums, differences, products, opposites and inverses modulo several primes, what the prime test says around its corners, and every
// operation on residues at the edges of their range. The expected text is made by tools/make/field_vectors.py, which shares no code with this.
#![tactic(auto)]

ghost use Rattle.field.specs.Residues.{Kept, Settled};

use field::{Modulus, PrimeModulus, Residue};
use std::io;

mod edges;

const PRIMES: [u64; 6] = [3, 5, 7, 11, 65537, 2147483647];

// Corners of document 01, squares of primes, Carmichael numbers, and primes past the limit.
const TRIED: [u64; 32] = [
    0,
    1,
    2,
    3,
    4,
    5,
    9,
    15,
    25,
    49,
    121,
    169,
    561,
    1105,
    1729,
    2465,
    2821,
    6601,
    8911,
    65537,
    4294967297,
    2147117569,
    2147483629,
    2147483631,
    2147483643,
    2147483645,
    2147483646,
    2147483647,
    2147483648,
    2147483659,
    2305843009213693951,
    18446744073709551557,
];

fn item(rt: &impl Print, n: u64) -> io::Result<()> {
    print!(rt; "{n} ")
}

fn line(rt: &impl Print, n: u64) -> io::Result<()> {
    println!(rt; "{n}")
}

// Small numbers, the middle, the end, and a few between.
fn sample(p: u64, k: usize) -> u64 {
    let n: u64 = match k {
        0 => 0,
        1 => 1,
        2 => 2,
        3 => p / 2,
        4 => p / 3,
        5 => 1234567,
        6 => 18446744073709551615,
        _ => 987654321,
    };
    if p == 0 {
        return 0;
    }
    n % p
}

fn print_inverse(rt: &impl Print, a: Residue, prime: PrimeModulus) -> io::Result<()>
    requires { Settled prime.m a }
{
    let m = prime.m;
    if a.is_zero(m) {
        println!(rt; "none")
    } else {
        line(rt, a.inverse(prime).settle(m).number(m))
    }
}

fn print_kept(rt: &impl Print, r: Residue, m: Modulus) -> io::Result<()>
    requires { Kept m r }
{
    item(rt, r.settle(m).number(m))
}

fn print_pair(rt: &impl Print, a: Residue, b: Residue, prime: PrimeModulus) -> io::Result<()>
    requires { Settled prime.m a × Settled prime.m b }
{
    let m = prime.m;
    item(rt, m.number())?;
    item(rt, a.number(m))?;
    item(rt, b.number(m))?;
    print_kept(rt, a.add(b, m), m)?;
    print_kept(rt, a.sub(b, m), m)?;
    print_kept(rt, a.mul(b, m), m)?;
    print_kept(rt, a.neg(m), m)?;
    print_inverse(rt, a, prime)
}

// Where p is an odd prime and both numbers are below it.
fn try_pair(rt: &impl Print, p: u64, a: u64, b: u64) -> io::Result<()> {
    let Some(prime) = Modulus::read(p) else {
        return Ok(());
    };
    if let (Some(x), Some(y)) = (Residue::read(a, prime.m), Residue::read(b, prime.m)) {
        print_pair(rt, x, y, prime)?;
    }
    Ok(())
}

fn try_prime(rt: &impl Print, p: u64) -> io::Result<()> {
    for k in 0..64 {
        try_pair(rt, p, sample(p, k / 8), sample(p, k % 8))?;
    }
    Ok(())
}

fn try_number(rt: &impl Print, n: u64) -> io::Result<()> {
    item(rt, n)?;
    if field_primes::is_odd_prime(n) {
        println!(rt; "prime")
    } else {
        println!(rt; "refused")
    }
}

fn print_primes(rt: &impl Print) -> io::Result<()> {
    for n in TRIED {
        try_number(rt, n)?;
    }
    Ok(())
}

fn main(rt: HostRuntime) -> io::Result<()> {
    for p in PRIMES {
        try_prime(&rt, p)?;
    }
    print_primes(&rt)?;
    edges::print_edges(&rt)
}
