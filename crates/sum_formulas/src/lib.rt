// When a sum is made by formula, for every table of both genera. Three conditions, and nothing else goes by formula:
// 1. both divisors have weight g (looked at in `jacobian`, where a divisor's cases are matched, and in `openings` for sums that share an inverse);
// 2. r isn't 0, so that u of the one has an inverse modulo u of the other (of a double: 2v modulo u);
// 3. the top coefficient of s' isn't 0. Genus 2 also takes s' of lower degree, by formulae of its own.
// 2 and 3 are looked at here, once. Whatever fails one of them goes to the plain sum, and nothing else does: where a formula has no answer one of them fails
// (`Unfit` in specs/Conditions; with 1, `UnfitSum` and `UnfitDouble` in jacobian/specs/Tries). f_6 is any: source 004's tables have f_6 = 0, and what stands here isn't theirs in that.
#![tactic(auto)]

ghost use Rattle.field.specs.Residues.{Settled};
ghost use Rattle.sum_formulas.specs.Conditions.{Looked};

use field::{Modulus, Residue};

// r = 0; s' of lower degree; neither: three kinds of work, none of them an absence, so no Option.
#[derive(Clone, Copy)]
pub enum Condition {
    Special,
    Flat,
    Main,
}

pub fn look(r: Residue, top: Residue, m: Modulus) -> Condition
    requires { Settled m r × Settled m top }
    ensures { Looked m r top result }
{
    if r.is_zero(m) {
        return Condition::Special;
    }
    if top.is_zero(m) {
        return Condition::Flat;
    }
    Condition::Main
}
