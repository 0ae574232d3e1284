// Products of two words, Montgomery's reduction and the inverse of an odd number modulo 2^64, on plain numbers.
#![tactic(auto)]

ghost use Rattle.std.specs.Prelude.{◌≡◌, ◌+◌, ◌*◌, ◌/◌, ◌%◌, ◌<◌};
ghost use Rattle.field_words.specs.Words.{word};
ghost use Rattle.field_words.specs.Reduced.{Turns, Reduced, Reducible};
ghost use Rattle.field_words.specs.Newton.{Closer, Zeros};

// The high word of a product.
fn high(a: u64, b: u64) -> u64
    ensures { result ≡ a * b / word }
{
    (a as u128 * b as u128 / 18446744073709551616) as u64
}

fn low(a: u64, b: u64) -> u64
    ensures { result ≡ a * b % word }
{
    a.wrapping_mul(b)
}

// What a sum of two words carries over.
fn carry(a: u64, b: u64) -> u64
    ensures { result ≡ (a + b) / word }
{
    u64::from(a.wrapping_add(b) < a)
}

// Montgomery's reduction of h * 2^64 + l, h below p, by the inverse q of p modulo 2^64: below 2p, and no carry.
fn reduce(h: u64, l: u64, p: u64, q: u64) -> u64
    requires { Turns p q × (h < p) }
    ensures { Reduced p (h * word + l) result }
{
    let n = high(low(l, q), p);
    h + p - n
}

// A product reduced, and a sum of two products.
pub fn product(a: u64, b: u64, p: u64, q: u64) -> u64
    requires { Reducible p q (a * b) }
    ensures { Reduced p (a * b) result }
{
    reduce(high(a, b), low(a, b), p, q)
}

pub fn products(a: u64, b: u64, c: u64, d: u64, p: u64, q: u64) -> u64
    requires { Reducible p q (a * b + c * d) }
    ensures { Reduced p (a * b + c * d) result }
{
    let x = low(a, b);
    let y = low(c, d);
    let h = high(a, b) + high(c, d) + carry(x, y);
    reduce(h, x.wrapping_add(y), p, q)
}

// One step of Newton's towards 1/p modulo 2^64: the error 1 - p * x is squared. It wraps on purpose.
fn closer(p: u64, x: u64) -> u64
    ensures { Closer p x result }
{
    x.wrapping_mul(2u64.wrapping_sub(p.wrapping_mul(x)))
}

// 1/p modulo 2^64 of an odd p. p itself is right in three bits, since p * p is 1 modulo 8, and each step doubles them: 6, 12, 24, 48, 96.
pub fn word_inverse(p: u64) -> u64
    requires { p % 2 ≡ 1 }
    ensures { p * result % word ≡ 1 }
{
    let x = closer(p, p);
    let x2 = closer(p, x);
    let x3 = closer(p, x2);
    let x4 = closer(p, x3);
    closer(p, x4)
}

// How many times 2 divides n.
pub fn twos(n: u64) -> u64
    requires { 0 < n }
    ensures { Zeros n result }
{
    n.trailing_zeros() as u64
}
