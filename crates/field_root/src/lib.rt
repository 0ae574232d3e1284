// Square roots modulo a prime p by Tonelli and Shanks, with the least nonsquare, and the roots of a quadratic (W-213). Each search ends by a theorem
// of rules/proofs/Roots: below p there is a number that isn't a square; and a nonzero a is a square exactly when a^((p-1)/2) is 1.
#![tactic(auto)]

ghost use Rattle.std.specs.Prelude.{◌<◌, ◌≡◌};
ghost use Rattle.field.specs.Primes.{Decides};
ghost use Rattle.field.specs.Residues.{el, Kept, HasInverse};
ghost use Rattle.field_root.specs.Squares.{Square, LeastNonsquare, ToRoot, RootOf, RootIs, RootsAre};

use field::{PrimeModulus, Residue};

// Whether a, other than 0, is a square.
fn is_square(a: Residue, prime: PrimeModulus) -> bool
    requires { HasInverse prime.m a }
    ensures { Decides result (Square prime.m.p (el prime.m a)) }
{
    let m = prime.m;
    let half = (m.number() - 1) / 2;
    a.power(half, m).is_one(m)
}

// The least of 2, 3, 4, .. that isn't a square.
fn least_nonsquare(prime: PrimeModulus) -> Residue
    ensures { LeastNonsquare prime.m result }
{
    let m = prime.m;
    let one = Residue::one(m);
    let mut z = one.add(one, m);
    for _n in 2..m.number() {
        if !is_square(z, prime) {
            return z;
        }
        z = z.add(one, m);
    }
    z
}

// A root of a square other than 0: x * x = a * b throughout, b to the 2^i is 1 and c to the 2^i is -1, until i is 0.
fn root_of_square(a: Residue, prime: PrimeModulus) -> Residue
    requires { ToRoot prime.m a }
    ensures { RootOf prime.m a result }
{
    let m = prime.m;
    let half = (m.number() - 1) / 2;
    let twos = field_words::twos(half);
    let q = half >> twos;
    let mut x = a.power(q / 2 + 1, m);
    let mut b = a.power(q, m);
    let mut c = least_nonsquare(prime).power(q, m);
    for i in (0..twos).rev() {
        let d = c.sqr(m);
        if b.power(1u64 << i, m).is_one(m) {
            c = d;
            continue;
        }
        x = x.mul(c, m);
        b = b.mul(d, m);
        c = d;
    }
    x
}

// A square root of a, or None where a is no square.
fn square_root(a: Residue, prime: PrimeModulus) -> Option<Residue>
    requires { Kept prime.m a }
    ensures { RootIs prime.m a result }
{
    if a.settle(prime.m).is_zero(prime.m) {
        return Some(a);
    }
    if is_square(a, prime) {
        return Some(root_of_square(a, prime));
    }
    None
}

// The roots of x^2 + b x + c, equal ones where it has a double root, or None where it has none.
pub fn quadratic(b: Residue, c: Residue, prime: PrimeModulus) -> Option<(Residue, Residue)>
    requires { Kept prime.m b × Kept prime.m c }
    ensures { RootsAre prime.m b c result }
{
    let m = prime.m;
    let d = b.sqr(m).sub(c.dbl(m).dbl(m), m);
    let s = square_root(d, prime)?;
    let n = b.neg(m);
    let r = n.add(s, m).half(m);
    let t = n.sub(s, m).half(m);
    Some((r, t))
}
