// Cantor's reduction, and the sum: composed, then reduced. Contracts promise the equations that the theorem of `rules` takes.
#![tactic(auto)]

ghost use Rattle.sum_cantor.specs.Reducing.{ToStep, Stepped, ToReduce, Reduced, ToSum, Summed};

use crate::composing::Mumford;
use field::PrimeModulus;
use poly::Poly;

pub mod common;
pub mod composing;

// One step of the reduction: u becomes (f - v * v) / u made monic, v becomes -v modulo the new u.
fn step(f: Poly, x: Mumford, prime: PrimeModulus) -> Mumford
    requires { ToStep prime.m f x }
    ensures { Stepped prime.m f x result }
{
    let m = prime.m;
    let u = composing::cofactor(f, x, prime).monic(prime);
    let v = x.v;
    let d = v.neg(m).div_rem(u, m);
    let r = d.remainder;
    Mumford { u: u, v: r }
}

// While deg u > g.
pub fn reduce(f: Poly, g: usize, x: Mumford, prime: PrimeModulus) -> Mumford
    requires { ToReduce prime.m f g x }
    ensures { Reduced prime.m f g x result }
{
    let mut y = x;
    let u = x.u;
    let mut n = u.n;
    // No range: each step says how far it came.
    while g + 1 < n {
        y = step(f, y, prime);
        let w = y.u;
        n = w.n;
    }
    y
}

pub fn sum(f: Poly, g: usize, a: Mumford, b: Mumford, prime: PrimeModulus) -> Mumford
    requires { ToSum prime.m f g a b }
    ensures { Summed prime.m f g a b result }
{
    reduce(f, g, composing::compose(f, a, b, prime), prime)
}

pub fn double(f: Poly, g: usize, a: Mumford, prime: PrimeModulus) -> Mumford
    requires { ToSum prime.m f g a a }
    ensures { Summed prime.m f g a a result }
{
    reduce(f, g, composing::compose_twice(f, a, prime), prime)
}
