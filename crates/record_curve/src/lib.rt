// Curve records: bytes in, a curve out. What is read and what is refused is what the rules say, in their order.
#![tactic(auto)]

ghost use Rattle.record_curve.specs.Read.{CurveIs, ToRead, CoefficientsIs, EquationIs};

use curve::{Curve, Equation};
use field::PrimeModulus;
use refusals::Refusal;

// What stands behind p: refusals 6 and 7.
fn read_coefficients(s: &[u8], g: usize, prime: PrimeModulus) -> Result<Curve, Refusal>
    requires { ToRead s.now g }
    ensures { CoefficientsIs s.now g prime.m result }
{
    let m = prime.m;
    let l = record_numbers::residues_at(s, Curve::LOW_AT, 5, m).ok_or(Refusal::CurveCoefficient)?;
    let h = record_numbers::residues_at(s, Curve::HIGH_AT, 2 * g - 4, m).ok_or(
        Refusal::CurveCoefficient,
    )?;
    let e = Equation {
        prime: prime,
        g: g,
        f0: l[0],
        f1: l[1],
        f2: l[2],
        f3: l[3],
        f4: l[4],
        f5: h[0],
        f6: h[1],
    };
    of_equation(e)
}

fn of_equation(e: Equation) -> Result<Curve, Refusal>
    ensures { EquationIs e result }
{
    if !poly_euclid::is_square_free(curve::polynomials::f_of(e), e.prime) {
        return Err(Refusal::RepeatedFactor);
    }
    let c = Curve {
        prime: e.prime,
        g: e.g,
        f0: e.f0,
        f1: e.f1,
        f2: e.f2,
        f3: e.f3,
        f4: e.f4,
        f5: e.f5,
        f6: e.f6,
    };
    Ok(c)
}

pub fn read_curve(s: &[u8]) -> Result<Curve, Refusal>
    ensures { CurveIs s.now result }
{
    record_curve_head::check_head(s)?;
    let prime = record_curve_prime::read_prime(s)?;
    read_coefficients(s, record_bytes::wide(s[Curve::GENUS_AT]) as usize, prime)
}
