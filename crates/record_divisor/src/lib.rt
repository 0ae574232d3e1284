// Divisor records: bytes in, a divisor out. What is read and what is refused is what the rules say, in their order.
#![tactic(auto)]

ghost use Rattle.std.specs.Prelude.{◌≡◌, ◌+◌, ◌*◌, ◌≤◌, length};
ghost use Rattle.rules.specs.Records.{fits};
ghost use Rattle.record_divisor.specs.Read.{DivisorIs};

use curve::Curve;
use divisor::Divisor;
use refusals::Refusal;

// Whether a record that ends at `end` fits: exactly, where it is the whole.
fn record_fits(whole: bool, end: usize, all: usize) -> bool
    ensures { result ≡ fits whole end all }
{
    if whole {
        return all == end;
    }
    end <= all
}

// The divisor record at a. Its place in a list is the caller's to say.
pub fn divisor_at(c: Curve, whole: bool, s: &[u8], a: usize) -> Result<Divisor, Refusal>
    requires { a ≤ length s.now }
    ensures { DivisorIs c whole s.now a result }
{
    if s.len() <= a {
        return Err(Refusal::DivisorLength); // empty
    }
    let w = record_bytes::wide(s[a]) as usize;
    let g = c.g;
    if g < w {
        return Err(Refusal::Weight);
    }
    if !record_fits(whole, a + 1 + 16 * w, s.len()) {
        return Err(Refusal::DivisorLength);
    }
    let Some(r) = record_numbers::residues_at(s, a + 1, 2 * w, c.prime.m) else {
        return Err(Refusal::DivisorCoefficient);
    };
    let d = Divisor::of_row(w, r);
    if !c.contains(d) {
        return Err(Refusal::NotOnCurve);
    }
    Ok(d)
}
