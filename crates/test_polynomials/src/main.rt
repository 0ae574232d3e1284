// Reads pairs of polynomials from standard input and prints their sums, products, divisions, gcds with cofactors, derivatives and
// whether they are square-free. Input and expected text are made by tools/make/poly_vectors.py, which shares no code with this.
// A number is 4 bytes, the highest first. A pair is p, then each polynomial: its length, its coefficients.
#![tactic(auto)]

ghost use Rattle.std.specs.Prelude.{◌+◌, ◌<◌, ◌≤◌, IfOk};
ghost use Rattle.poly.specs.Polys.{Ok};

use field::{Modulus, PrimeModulus};
use poly::Poly;
use std::io;

// The longest text that is read.
const MOST: usize = 65536;

// The number at at; 0 past the end.
fn number(s: &[u8], at: usize) -> u64 {
    if s.len() < 4 || s.len() - 4 < at {
        return 0;
    }
    record_bytes::read32(s, at)
}

fn length(s: &[u8], at: usize) -> usize
    ensures { result ≤ 10 }
{
    let n = number(s, at);
    if n <= 10 { n as usize } else { 0 }
}

fn read_poly(s: &[u8], at: usize, m: Modulus) -> Poly
    requires { at ≤ 100000 }
    ensures { Ok m result }
{
    let n = length(s, at);
    let mut r = Poly::zero(m);
    for k in 0..n {
        let x = test_text::numbers::residue(number(s, at + 4 * (k + 1)), m);
        r = r.put(k, x, m);
    }
    r
}

fn item(rt: &impl Print, n: u64) -> io::Result<()> {
    print!(rt; " {n}")
}

fn print_at(rt: &impl Print, x: Poly, k: usize, m: Modulus) -> io::Result<()>
    requires { Ok m x }
{
    item(rt, x.get(k).settle(m).number(m))
}

fn show(rt: &impl Print, name: &str, x: Poly, m: Modulus) -> io::Result<()>
    requires { Ok m x }
{
    print!(rt; "{name}")?;
    for k in 0..x.n {
        print_at(rt, x, k, m)?;
    }
    println!(rt;)
}

fn sums(rt: &impl Print, a: Poly, b: Poly, m: Modulus) -> io::Result<()>
    requires { Ok m a × Ok m b }
{
    show(rt, "sum", a.add(b, m), m)?;
    show(rt, "difference", a.sub(b, m), m)?;
    show(rt, "opposite", a.neg(m), m)
}

// Where the product fits.
fn product(rt: &impl Print, a: Poly, b: Poly, prime: PrimeModulus) -> io::Result<()>
    requires { Ok prime.m a × Ok prime.m b }
{
    if a.n + b.n <= 12 {
        show(rt, "product", a.mul(b, prime), prime.m)
    } else {
        println!(rt; "product none")
    }
}

// By b made monic.
fn division(rt: &impl Print, a: Poly, b: Poly, prime: PrimeModulus) -> io::Result<()>
    requires { Ok prime.m a × Ok prime.m b }
{
    let m = prime.m;
    if b.n == 0 {
        return println!(rt; "quotient none");
    }
    let d = a.div_rem(b.monic(prime), m);
    show(rt, "quotient", d.quotient, m)?;
    show(rt, "remainder", d.remainder, m)
}

fn gcds(rt: &impl Print, a: Poly, b: Poly, prime: PrimeModulus) -> io::Result<()>
    requires { Ok prime.m a × Ok prime.m b }
{
    let m = prime.m;
    show(rt, "gcd", poly_euclid::gcd(a, b, prime), m)?;
    let x = poly_euclid::xgcd(a, b, prime);
    show(rt, "again", x.r, m)?;
    show(rt, "s", x.s, m)?;
    show(rt, "t", x.t, m)
}

fn alone(rt: &impl Print, a: Poly, prime: PrimeModulus) -> io::Result<()>
    requires { Ok prime.m a }
{
    let m = prime.m;
    show(rt, "derivative", a.derivative(m), m)?;
    if poly_euclid::is_square_free(a, prime) {
        println!(rt; "square-free")
    } else {
        println!(rt; "repeated factor")
    }
}

fn pair(rt: &impl Print, a: Poly, b: Poly, prime: PrimeModulus) -> io::Result<()>
    requires { Ok prime.m a × Ok prime.m b }
{
    let m = prime.m;
    show(rt, "a", a, m)?;
    show(rt, "b", b, m)?;
    sums(rt, a, b, m)?;
    product(rt, a, b, prime)?;
    division(rt, a, b, prime)?;
    gcds(rt, a, b, prime)?;
    alone(rt, a, prime)
}

fn modulo(rt: &impl Print, s: &[u8], at: usize, next: usize, prime: PrimeModulus) -> io::Result<()>
    requires { (at ≤ 100000) × (next ≤ 100000) }
{
    let m = prime.m;
    print!(rt; "p")?;
    item(rt, m.number())?;
    println!(rt;)?;
    pair(rt, read_poly(s, at, m), read_poly(s, next, m), prime)
}

// One pair, and where the next one stands.
fn case(rt: &impl Print, s: &[u8], at: usize) -> io::Result<usize>
    requires { at < 65536 }
    ensures { IfOk result (λ next. (at < next) × (next ≤ at + 92)) }
{
    let first = at + 4;
    let second = first + 4 * (length(s, first) + 1);
    if let Some(prime) = Modulus::read(number(s, at)) {
        modulo(rt, s, first, second, prime)?;
    }
    Ok(second + 4 * (length(s, second) + 1))
}

fn run(rt: &impl Print, s: &[u8]) -> io::Result<()> {
    let end = s.len();
    if MOST < end {
        return Ok(());
    }
    let mut at: usize = 0;
    // No range: each case says where the next one begins.
    while at < end {
        at = case(rt, s, at)?;
    }
    Ok(())
}

fn main(rt: HostRuntime) -> io::Result<()> {
    // Room for one byte more, so that a text that is too long shows.
    let mut text = [0u8; MOST + 1];
    let s = test_text::input::read(&mut rt.stdin(), &mut text)?;
    run(&rt, s)
}
