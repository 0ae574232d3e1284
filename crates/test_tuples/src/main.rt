// Reads pairs of tuples from standard input and prints the plain form of their sum, of the sum with the second one made plain first, and of twice the
// first; "special" where the answer's Z is 0. Input and expected text are made by tools/make/tuple_vectors.py, from plain divisors alone.
// A number is 4 bytes, the highest first. A row is p, f2, f3, f4, then u1, u0, v1, v0 and Z of each tuple.
#![tactic(auto)]

ghost use Rattle.std.specs.Prelude.{◌≡◌, ◌≤◌, length};
ghost use Rattle.field.specs.Residues.{Kept, Settled};
ghost use Rattle.divisor.specs.Divisors.{Held};
ghost use Rattle.multiple_tuple.specs.Tuples.{KeptTuple};

use divisor::{Divisor, Quadratic};
use field::{Modulus, PrimeModulus, Residue};
use multiple_tuple::Tuple;
use std::io;

// The longest text that is read.
const MOST: usize = 65536;

const ROW: usize = 56;

// The residue at place k of a row.
fn number(s: &[u8], k: usize, m: Modulus) -> Residue
    requires { (length s.now ≡ 56) × (k ≤ 13) }
    ensures { Settled m result }
{
    test_text::numbers::residue(record_bytes::read32(s, 4 * k), m)
}

fn tuple(s: &[u8], k: usize, m: Modulus) -> Tuple
    requires { (length s.now ≡ 56) × (k ≤ 9) }
    ensures { KeptTuple m result × Settled m result.z }
{
    Tuple {
        u1: number(s, k, m),
        u0: number(s, k + 1, m),
        v1: number(s, k + 2, m),
        v0: number(s, k + 3, m),
        z: number(s, k + 4, m),
    }
}

fn item(rt: &impl Print, x: Residue, m: Modulus) -> io::Result<()>
    requires { Settled m x }
{
    let n = x.number(m);
    print!(rt; " {n}")
}

fn print_plain(rt: &impl Print, q: Quadratic, m: Modulus) -> io::Result<()>
    requires { Held m (Divisor.Two q) }
{
    item(rt, q.u1, m)?;
    item(rt, q.u0, m)?;
    item(rt, q.v1, m)?;
    item(rt, q.v0, m)?;
    println!(rt;)
}

fn show(rt: &impl Print, name: &str, t: Tuple, prime: PrimeModulus) -> io::Result<()>
    requires { KeptTuple prime.m t × Settled prime.m t.z }
{
    let m = prime.m;
    print!(rt; "{name}")?;
    if t.z.is_zero(m) {
        return println!(rt; " special");
    }
    print_plain(rt, multiple_tuple::back(t, prime), m)
}

// The second one made plain.
fn mixed(rt: &impl Print, a: Tuple, b: Tuple, f4: Residue, prime: PrimeModulus) -> io::Result<()>
    requires { KeptTuple prime.m a × KeptTuple prime.m b × Settled prime.m b.z × Kept prime.m f4 }
{
    let m = prime.m;
    if b.z.is_zero(m) {
        return println!(rt; "mixed none");
    }
    let q = multiple_tuple::back(b, prime);
    show(rt, "mixed", multiple_tuple::mixed(a, q, f4, prime), prime)
}

fn double(rt: &impl Print, s: &[u8], a: Tuple, f4: Residue, prime: PrimeModulus) -> io::Result<()>
    requires { (length s.now ≡ 56) × KeptTuple prime.m a × Kept prime.m f4 }
{
    let m = prime.m;
    let f2 = number(s, 1, m);
    let f3 = number(s, 2, m);
    show(
        rt,
        "double",
        multiple_tuple::double(a, f2, f3, f4, prime),
        prime,
    )
}

fn row(rt: &impl Print, s: &[u8], prime: PrimeModulus) -> io::Result<()>
    requires { (length s.now ≡ 56) }
{
    let m = prime.m;
    let f4 = number(s, 3, m);
    let a = tuple(s, 4, m);
    let b = tuple(s, 9, m);
    show(rt, "sum", multiple_tuple::add(a, b, f4, prime), prime)?;
    mixed(rt, a, b, f4, prime)?;
    double(rt, s, a, f4, prime)
}

fn case(rt: &impl Print, s: &[u8]) -> io::Result<()>
    requires { length s.now ≡ 56 }
{
    let Some(prime) = Modulus::read(record_bytes::read32(s, 0)) else {
        return Ok(());
    };
    row(rt, s, prime)
}

fn run(rt: &impl Print, s: &[u8]) -> io::Result<()> {
    if MOST < s.len() {
        return Ok(());
    }
    for row in s.chunks_exact(ROW) {
        case(rt, row)?;
    }
    Ok(())
}

fn main(rt: HostRuntime) -> io::Result<()> {
    // Room for one byte more, so that a text that is too long shows.
    let mut text = [0u8; MOST + 1];
    let s = test_text::input::read(&mut rt.stdin(), &mut text)?;
    run(&rt, s)
}
