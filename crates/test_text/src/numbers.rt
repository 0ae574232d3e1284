// For tests: a number as a residue, 1 where it isn't below p.
ghost use Rattle.field.specs.Residues.{Kept, Settled};

use field::{Modulus, Residue};

#[tactic(auto, using(field::proofs::Laws::settled_kept))]
pub fn residue(x: u64, m: Modulus) -> Residue
    ensures { Settled m result × Kept m result }
{
    Residue::read(x, m).unwrap_or(Residue::one(m))
}
