// The next divisor of a training curve (W-211): a divisor's weight and numbers are a counter, the last number the quickest. Each turn of it is tried on the curve,
// but for those of weight 3 that a cheaper test, on one coefficient, turns away.
#![tactic(auto)]

ghost use Rattle.std.specs.Prelude.{◌≡◌, ◌*◌, ◌≤◌};
ghost use Rattle.algebra.proofs.Zmod.Zmod.{zmod};
ghost use Rattle.field.specs.Primes.{Decides};
ghost use Rattle.field.specs.Residues.{el, Settled};
ghost use Rattle.divisor.specs.Divisors.{Held};
ghost use Rattle.curve.specs.Curves.{Holds};
ghost use Rattle.divisor_census.specs.Rows.{Rowed, RaisedIs, Advanced, NextIs};
ghost use Rattle.divisor_census.specs.Screens.{value, Ready, Screens, Passed, Skipped};

use curve::Curve;
use divisor::{Cubic, Divisor};
use field::{Modulus, Residue};

// What is tried on the curve: a weight w, and the first 2 w numbers of a row.
#[derive(Clone, Copy, Debug, PartialEq, Eq)]
pub struct Candidate {
    pub weight: usize,
    pub row: [Residue; 6],
}

// The last of the first n numbers that isn't p - 1 is raised by one, and those behind it are zero. None where each is p - 1.
fn raise(r: [Residue; 6], n: usize, m: Modulus) -> Option<[Residue; 6]>
    requires { Rowed m n r }
    ensures { RaisedIs m n r result }
{
    let one = Residue::one(m);
    let mut row = r;
    for k in (0..n).rev() {
        let x = row[k].add(one, m).settle(m);
        row[k] = x;
        if !x.is_zero(m) {
            return Some(row);
        }
    }
    None
}

// The candidate behind this one: the numbers raised, or the next weight from zeros on.
fn advance(w: usize, row: [Residue; 6], m: Modulus) -> Candidate
    requires { Rowed m (2 * w) row }
    ensures { Advanced m w row result }
{
    match raise(row, 2 * w, m) {
        Some(r) => Candidate { weight: w, row: r },
        None => Candidate {
            weight: w + 1,
            row: [Residue::zero(); 6],
        },
    }
}

// Weight 3: of what f - v * v leaves when it is divided by u, the coefficient of x^0, as a polynomial in v2: c0 + c1 v2 + c2 v2². Where it isn't zero,
// the divisor isn't valid; of p numbers v2 at most two pass, unless all do.
#[derive(Clone, Copy, Debug, PartialEq, Eq)]
pub struct Screen {
    pub c0: Residue,
    pub c1: Residue,
    pub c2: Residue,
}

// By the quotient's coefficients, from the top: q3 and q2 have no v2 in them, q1 is a - v2², and q0 is q - 2 v1 v2 + u2 v2².
fn screen_of(c: Curve, d: Cubic) -> Screen
    requires { (c.g ≡ 3) × Held c.prime.m (Divisor.Three d) }
    ensures { Screens c d result }
{
    let m = c.prime.m;
    let q3 = c.f6.sub(d.u2, m);
    let q2 = c.f5.sub(d.u1, m).sub(q3.mul(d.u2, m), m);
    let a = c.f4.sub(d.u0, m).sub(q3.dot(d.u1, q2, d.u2, m), m);
    let b = c.f3.sub(q3.dot(d.u0, q2, d.u1, m), m);
    let q = b.sub(a.mul(d.u2, m), m);
    let c0 = c.f0.sub(d.v0.dot(d.v0, q, d.u0, m), m);
    let c1 = d.u0.dbl(m).mul(d.v1, m);
    let c2 = d.u0.mul(d.u2, m).neg(m);
    Screen {
        c0: c0,
        c1: c1,
        c2: c2,
    }
}

// Whether it is zero where v2 is t.
fn passes(s: Screen, t: Residue, m: Modulus) -> bool
    requires { Ready m s × Settled m t }
    ensures { Decides result (value m s (el m t) ≡ (zmod m.p).zer) }
{
    t.mul_sum(s.c2.mul(t, m), s.c1, m)
        .add(s.c0, m)
        .settle(m)
        .is_zero(m)
}

// The first number from t on that passes, or p - 1.
fn first_passing(s: Screen, t: Residue, m: Modulus) -> Residue
    requires { Ready m s × Settled m t }
    ensures { Passed m s t result }
{
    let one = Residue::one(m);
    let mut x = t;
    for _n in t.number(m)..m.number() - 1 {
        if passes(s, x, m) {
            return x;
        }
        x = x.add(one, m).settle(m);
    }
    x
}

// A candidate's row, of weight 3 with its last number raised past those that the screen turns away.
fn skip(c: Curve, w: usize, row: [Residue; 6]) -> [Residue; 6]
    requires { (w ≤ c.g) × Rowed c.prime.m (2 * w) row }
    ensures { Skipped c w row result }
{
    match Divisor::of_row(w, row) {
        Divisor::Three(d) => {
            let m = c.prime.m;
            let mut r = row;
            r[5] = first_passing(screen_of(c, d), d.v2, m);
            r
        }
        _ => row,
    }
}

// The next valid divisor, in order of weight and then of the numbers, those of u first. None behind the last.
pub fn next_valid(c: Curve, d: Divisor) -> Option<Divisor>
    requires { Holds c d }
    ensures { NextIs c d result }
{
    let m = c.prime.m;
    let mut t = advance(d.weight(), d.row(), m);
    // Each turn goes on from the candidate before, past those that the screen turns away: no range counts them.
    while t.weight <= c.g {
        let r = skip(c, t.weight, t.row);
        let x = Divisor::of_row(t.weight, r);
        if c.contains(x) {
            return Some(x);
        }
        t = advance(t.weight, r, m);
    }
    None
}
