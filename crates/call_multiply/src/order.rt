// The call inside Rattle that checks a divisor's order (W-214): n by its bytes, and the primes that it is made of, 4 bytes each. Its promise is an equation with the call's rule.
ghost use Rattle.rules.specs.Bytes.{number};
ghost use Rattle.rules.specs.Calls.{listed, check_order};
ghost use Rattle.rules.proofs.Calls.Orders.{Tested};
ghost use Rattle.field.specs.Primes.{Decides};
ghost use Rattle.divisor.specs.Divisors.{pair};
ghost use Rattle.curve.specs.Curves.{Holds};
ghost use Rattle.curve.specs.Record.{record_of};
ghost use Rattle.multiple_affine.specs.promise.Contracts.{ToMultiply};
ghost use Rattle.call_answer.specs.Answers.{CheckIs};
ghost use Rattle.call_multiply.specs.order.Folds.{ToLook, Folded, NoneBelow};

use curve::Curve;
use divisor::Divisor;
use refusals::{MOST_LISTED, MOST_SCALAR, Refusal, Refused};

fn is_neutral_fold(c: Curve, a: Divisor, n: [u8; MOST_SCALAR]) -> bool
    requires { Holds c a }
    ensures { Folded c a (number n) result }
{
    crate::quicker(c, a, &n).divisor.weight() == 0
}

// Whether no n / q-fold is neutral, for each listed q.
fn is_none_below(c: Curve, a: Divisor, n: [u8; MOST_SCALAR], primes: &[u8]) -> bool
    requires { ToLook c a (listed primes.now) }
    ensures { NoneBelow c a (number n) (listed primes.now) result }
{
    for j in 0..primes.len() / 4 {
        let q = record_bytes::read32(primes, 4 * j);
        if is_neutral_fold(c, a, scalar::numbers::divide(n, q).quotient) {
            return false;
        }
    }
    true
}

// Whether n is the order, and the list has its primes.
fn is_order(c: Curve, a: Divisor, order: &[u8], primes: &[u8]) -> bool
    requires { ToMultiply c a order.now }
    ensures { Decides result (Tested (record_of c) (pair c.prime.m a) order.now primes.now) }
{
    if primes.len() % 4 != 0 || MOST_LISTED < primes.len() {
        return false;
    }
    let n = scalar::numbers::from_bytes(order);
    if scalar::numbers::capped(n) == Some(0) {
        return false;
    }
    if !scalar::numbers::is_made_of(n, primes) {
        return false;
    }
    is_neutral_fold(c, a, n) && is_none_below(c, a, n, primes)
}

#[tactic(auto, unfolding(rules::specs::Calls::check_order))]
pub fn check_order(curve: &[u8], divisor: &[u8], order: &[u8], primes: &[u8]) -> Result<(), Refused>
    ensures { CheckIs result (check_order curve.now divisor.now order.now primes.now) }
{
    let (c, d) = call_answer::read_curve_and_divisor(curve, divisor)?;
    if MOST_SCALAR < order.len() {
        return Err(Refusal::ScalarLength.at(0));
    }
    if !is_order(c, d, order, primes) {
        return Err(Refusal::Order.at(0));
    }
    Ok(())
}
