// Montgomery's form with R = 2^64, on plain numbers: its constants, a number brought below p, powers, and the end of an inverse. A number n stands for n/R.
#![tactic(auto)]

ghost use Rattle.std.specs.Prelude.{◌+◌, ◌<◌};
ghost use Rattle.field_montgomery.specs.Constants.{Same, Words, ToSquare, Squared};
ghost use Rattle.field_montgomery.specs.Powers.{ToPower, Powered, ToFinish, Finished};

pub mod halving;

// The same element, below p.
pub fn lower(x: u64, p: u64) -> u64
    requires { x < p + p }
    ensures { Same p x result }
{
    if x < p {
        return x;
    }
    x - p
}

// 2^64 modulo p.
pub fn word(p: u64) -> u64
    requires { 0 < p }
    ensures { Words p result }
{
    (18446744073709551615 % p + 1) % p
}

// From 2^64 modulo p its square: 2 in Montgomery's form, squared six times, is 2^64 in that form.
pub fn squared(one: u64, p: u64, q: u64) -> u64
    requires { ToSquare p q one }
    ensures { Squared p result }
{
    let two = one + one;
    let x = field_words::product(two, two, p, q);
    let x2 = field_words::product(x, x, p, q);
    let x3 = field_words::product(x2, x2, p, q);
    let x4 = field_words::product(x3, x3, p, q);
    let x5 = field_words::product(x4, x4, p, q);
    field_words::product(x5, x5, p, q)
}

// a to the n, where one stands for 1.
pub fn power(a: u64, n: u64, one: u64, p: u64, q: u64) -> u64
    requires { ToPower p q one a }
    ensures { Powered p q a n result }
{
    let mut x = one;
    let mut y = a;
    let mut k = n;
    // No range: the bits of n are taken off as they are read.
    while 0 < k {
        if k % 2 == 1 {
            x = field_words::product(x, y, p, q);
            k = k - 1;
            continue;
        }
        y = field_words::product(y, y, p, q);
        k = k / 2;
    }
    x
}

// s * 2^(128 - k) modulo p, below 2p: the inverse of a, in Montgomery's form if a was in it, from its almost inverse s. The power is made in two parts, since none of them may
// pass a word, and x + x is the bit that a shift lacks.
pub fn finish(s: u64, k: u64, p: u64, q: u64, square: u64, cube: u64) -> u64
    requires { ToFinish p q square cube s k }
    ensures { Finished p s k result }
{
    if k < 64 {
        let x = field_words::product(s, 1u64 << (63 - k), p, q);
        return field_words::product(x + x, cube, p, q);
    }
    let x = field_words::product(s, 1u64 << (127 - k), p, q);
    field_words::product(x + x, square, p, q)
}
