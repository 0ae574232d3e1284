// The first repeat of a batch: records one after the other, read in one pass. No divisor is kept: 48 KB of numbers stand on the stack.
ghost use Rattle.std.specs.Prelude.{◌≡◌, ◌+◌, ◌≤◌, ◌<◌, length};
ghost use Rattle.rules.specs.Records.{us_at};
ghost use Rattle.rules.specs.Calls.{repeat_call};
ghost use Rattle.rules.specs.First.{FirstIs};
ghost use Rattle.field.specs.Primes.{Decides};
ghost use Rattle.call_batch.specs.repeat.Repeats.{repeat_on, RepeatIs};
ghost use Rattle.call_batch.specs.repeat.Chains.{mix, chain_of, Whole, Excludes, lowest32, lowest64};
ghost use Rattle.call_batch.specs.repeat.Rows.{Row, SameAs, SameIn, Rows, places_of};

use crate::places::Repeat;
use curve::Curve;
use refusals::{Refusal, Refused};

// One more number in a hash of 32 bits.
#[tactic(auto, unfolding(crate::specs::repeat::Chains::mix))]
fn mixed(h: u64, x: u64) -> u64
    requires { h < 4294967296 }
    ensures { result ≡ mix h x }
{
    (h + x % 4294967296 + x / 4294967296) * 1013904223 % 4294967296
}

// The chain of the record at a: by all of u's coefficients, so that meters that share some of them stand in different chains.
fn chain(s: &[u8], a: usize) -> usize
    requires { Whole s.now a }
    ensures { result ≡ chain_of (us_at s.now a) }
{
    let w = record_bytes::wide(s[a]) as usize;
    let mut h: u64 = 0;
    for k in 0..w {
        h = mixed(h, record_bytes::read64(s, a + 1 + 8 * k));
    }
    (h / 1048576) as usize
}

// Eight bytes as a number, the lowest first: what the machine reads at once, and numbers that are only compared need no other order.
#[tactic(auto, unfolding(crate::specs::repeat::Chains::lowest64))]
fn low64(s: &[u8], a: usize) -> u64
    requires { a + 8 ≤ length s.now }
    ensures { result ≡ lowest64 s.now a }
{
    u64::from_le_bytes([
        s[a],
        s[a + 1],
        s[a + 2],
        s[a + 3],
        s[a + 4],
        s[a + 5],
        s[a + 6],
        s[a + 7],
    ])
}

// Whether the records at a and b may be of one meter, by their bytes: good records have one form, so that weight and u must be the same.
fn may_be_same(s: &[u8], a: usize, b: usize) -> bool
    requires { Whole s.now a × Whole s.now b }
    ensures { Excludes result (us_at s.now a ≡ us_at s.now b) }
{
    let w = s[a];
    if w != s[b] {
        return false;
    }
    if w == 0 {
        return true;
    }
    if low64(s, a + 1) != low64(s, b + 1) {
        return false;
    }
    if w == 1 {
        return true;
    }
    if low64(s, a + 9) != low64(s, b + 9) {
        return false;
    }
    if w == 2 {
        return true;
    }
    low64(s, a + 17) == low64(s, b + 17)
}

// Whether the records at a and b are of one meter, by what is read there again.
fn alike(c: Curve, s: &[u8], a: usize, b: usize) -> bool
    requires { Row c s.now a × Row c s.now b }
    ensures { Decides result (SameAs c s.now a b) }
{
    let Ok(x) = record_divisor::divisor_at(c, false, s, a) else {
        return false;
    };
    let Ok(y) = record_divisor::divisor_at(c, false, s, b) else {
        return false;
    };
    divisor_repeat::same(x, y, c.prime.m)
}

// Of the first n records: least j, then least i < j. Each stands in its chain, the latest first: head has 1 and the place of a chain's latest, before of each
// the one before it, and 0 where there is none, since Options would double the room. Both loops stop at the first pair of the same.
fn search(c: Curve, s: &[u8], places: &[usize], n: usize) -> Option<Repeat>
    requires { Rows c s.now places.now n }
    ensures { FirstIs (SameIn c s.now places.now) n (places_of result) }
{
    let mut head = [0u16; refusals::MOST];
    let mut before = [0u16; refusals::MOST];
    let mut answer = None;
    'search: for j in 0..n {
        let a = places[j];
        let b = chain(s, a);
        let last = head[b];
        let mut i = last;
        // No range: each step down the chain is read from `before`.
        while i > 0 {
            let x = (i as usize) - 1;
            i = before[x];
            if may_be_same(s, places[x], a) && alike(c, s, places[x], a) {
                answer = Some(Repeat {
                    first: (x + 1) as u64,
                    second: (j + 1) as u64,
                });
                break 'search;
            }
        }
        before[j] = last;
        head[b] = (j + 1) as u16;
    }
    answer
}

// The first repeat of a batch on a curve that was taken: where its records begin.
pub fn repeat_on(c: Curve, s: &[u8]) -> Result<Option<Repeat>, Refused>
    ensures { RepeatIs result (repeat_on c s.now) }
{
    let mut places = [0usize; refusals::MOST];
    let mut n: usize = 0;
    let mut a: usize = 0;
    // No range: each record says how long it is.
    while a < s.len() {
        if n == refusals::MOST {
            return Err(Refusal::Full.at(0));
        }
        call_answer::record_at(c, s, a, (n + 1) as u64)?;
        places[n] = a;
        a = a + 1 + 16 * (record_bytes::wide(s[a]) as usize);
        n += 1;
    }
    Ok(search(c, s, &places, n))
}

// None where nothing is repeated.
#[tactic(auto, unfolding(rules::specs::Calls::repeat_call))]
pub fn first_repeat(curve: &[u8], batch: &[u8]) -> Result<Option<Repeat>, Refused>
    ensures { RepeatIs result (repeat_call curve.now batch.now) }
{
    let c = record_curve::read_curve(curve)?;
    repeat_on(c, batch)
}
