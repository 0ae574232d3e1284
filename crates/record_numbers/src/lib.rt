// Numbers that stand in a row in a record, eight bytes each, as residues: what a curve record and a divisor record are read by.
#![tactic(auto)]

ghost use Rattle.std.specs.Prelude.{◌+◌, ◌*◌, ◌≤◌, length};
ghost use Rattle.record_numbers.specs.Read.{ResiduesIs};

use field::{Modulus, Residue};

pub mod write;

// Up to six numbers, all below p, and zeros behind them.
pub fn residues_at(s: &[u8], a: usize, n: usize, m: Modulus) -> Option<[Residue; 6]>
    requires { (n ≤ 6) × (a + 8 * n ≤ length s.now) }
    ensures { ResiduesIs s.now a n m result }
{
    let mut r = [Residue::zero(); 6];
    for k in 0..n {
        r[k] = Residue::read(record_bytes::read64(s, a + 8 * k), m)?;
    }
    Some(r)
}
