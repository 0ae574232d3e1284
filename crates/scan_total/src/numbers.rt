// A divisor kept as plain numbers, as a running total holds it: each coefficient's residue holds the number that it is written as, under whatever
// modulus. Taken up again its numbers are read as residues; stored it has the numbers of its residues.
ghost use Rattle.std.specs.Prelude.{◌≡◌};
ghost use Rattle.algebra.proofs.Zmod.Zmod.{num, emb};
ghost use Rattle.field.specs.Residues.{el, raw, Settled, Settles};
ghost use Rattle.divisor.specs.Divisors.{Held};
ghost use Rattle.scan_total.specs.numbers.Plain.{AllIn, Resumed, Stored};

use divisor::Divisor;
use field::{Modulus, Residue};

// A plain number, below p, as a residue; and back.
fn to_residue(r: Residue, m: Modulus) -> Residue
    requires { Settled m r }
    ensures { Settles m result (emb m.p (raw r)) }
{
    Residue::read(r.to_raw(), m).unwrap_or(r)
}

fn to_number(r: Residue, m: Modulus) -> Residue
    requires { Settled m r }
    ensures { raw result ≡ num m.p (el m r) }
{
    Residue::from_raw(r.number(m))
}

pub fn residues_of(d: Divisor, m: Modulus) -> Divisor
    requires { AllIn m d }
    ensures { Resumed m d result }
{
    let w = d.weight();
    let mut r = d.row();
    for k in 0..2 * w {
        r[k] = to_residue(r[k], m);
    }
    Divisor::of_row(w, r)
}

pub fn numbers_of(d: Divisor, m: Modulus) -> Divisor
    requires { Held m d }
    ensures { Stored m d result }
{
    let w = d.weight();
    let mut r = d.row();
    for k in 0..2 * w {
        r[k] = to_number(r[k], m);
    }
    Divisor::of_row(w, r)
}
