// The signed digits of a scalar: its non-adjacent form, found in one walk over its bits from the lowest, and how many there are, by its bytes and those of 3n.
#![tactic(auto)]

ghost use Rattle.std.specs.Prelude.{◌≡◌, ◌*◌, ◌/◌, ◌%◌, ◌^◌, ◌≤◌, ◌<◌, length};
ghost use Rattle.rules.specs.Bytes.{number};
ghost use Rattle.rules.proofs.Calls.Bytes.{AreBytes};
ghost use Rattle.scalar.specs.Recoded.{Risen, Counted, Recoded};

pub mod numbers;

// The digits -1 and 0 as they are kept, one above; 1 is the other one.
pub const MINUS: u8 = 0;

pub const NULL: u8 = 1;

// The signed digits of a scalar of up to 32 bytes, the lowest first, each kept as the number one above it; how many there are, and how many of them are nonzero.
#[derive(Clone, Copy, Debug, PartialEq, Eq)]
pub struct Digits {
    pub at: [u8; 257],
    pub length: usize,
    pub nonzeros: u64,
}

// Bit k of a scalar, counted from the lowest; 0 above the highest.
fn bit(s: &[u8], k: usize) -> u8
    requires { AreBytes s.now }
    ensures { result ≡ number s.now / 2 ^ k % 2 }
{
    let j = k / 8;
    if j < s.len() {
        return (s[s.len() - 1 - j] >> (k % 8)) % 2;
    }
    0
}

// Where the highest one of 3n stands, with t read from bit k on: t holds a byte of 3n and what is carried from it.
fn risen(old: usize, k: usize, t: u16) -> usize
    requires { k ≤ 256 }
    ensures { Risen old k t result }
{
    if t == 0 {
        return old;
    }
    k + (15 - t.leading_zeros()) as usize
}

// How many digits the non-adjacent form of a scalar has, and how many of them are nonzero: it has as many as stand below the highest one of 3n, and the nonzero ones are the ones of 3n xor n.
#[derive(Clone, Copy, Debug, PartialEq, Eq)]
struct Counts {
    length: usize,
    nonzeros: u64,
}

impl Counts {
    fn from_bytes(s: &[u8]) -> Counts
        requires { length s.now ≤ 32 }
        ensures { Counted (number s.now) result }
    {
        let mut carry: u16 = 0;
        let mut length: usize = 0;
        let mut nonzeros: u64 = 0;
        for j in 0..s.len() {
            let b = s[s.len() - 1 - j] as u16;
            let t = 3 * b + carry;
            length = risen(length, 8 * j, t);
            nonzeros += ((t % 256) ^ b).count_ones() as u64;
            carry = t / 256;
        }
        Counts {
            length,
            nonzeros: nonzeros + carry.count_ones() as u64,
        }
    }
}

impl Digits {
    // Digit k is bit k and its carry less twice the next carry, which is half of bit k, bit k + 1 and the carry together.
    pub fn from_bytes(s: &[u8]) -> Digits
        requires { length s.now ≤ 32 }
        ensures { Recoded (number s.now) result }
    {
        let counts = Counts::from_bytes(s);
        let mut at: [u8; 257] = [NULL; 257];
        let end = 8 * s.len() + 1;
        let mut next = bit(s, 0);
        let mut carry: u8 = 0;
        for k in 0..end {
            let t = next + carry;
            next = bit(s, k + 1);
            carry = (t + next) / 2;
            at[k] = t + 1 - 2 * carry;
        }
        Digits {
            at,
            length: counts.length,
            nonzeros: counts.nonzeros,
        }
    }
}
