// A frame's call, run through the calls that are exported, and its line of text: what tools/README.md says of both. For tests: the contracts
// say no more than safety asks.
#![tactic(auto)]

pub mod lent;
pub mod lines;
pub mod operation;

use crate::lines::{checked, multiplied, pole_read, repeated, scanned, totalled, written};
use crate::operation::Operation;
use scan_flat::YubiScanned;
use scan_total::Running;
use tablet_answers::{YubiAnswer, YubiMultiple};

// What a frame asks, an operation by its number. Where a scan has its running total, an order has its primes, and a written file its pole's number.
#[derive(Clone, Copy)]
pub struct Call<'a> {
    pub operation: u8,
    pub curve: &'a [u8],
    pub first: &'a [u8],
    pub second: &'a [u8],
    pub total: &'a [u8],
}

fn scan(text: &mut [u8], call: Call) -> Option<usize> {
    let t = lines::running_of(call.total)?;
    Some(scanned(text, tablet::yubi_scan(t, call.curve, call.first)))
}

// The same scan into a total that is lent. A total of zeros, but for its pole, is the library's own fresh one.
fn scan_lent(text: &mut [u8], call: Call) -> Option<usize> {
    let mut t = lines::running_of(call.total)?;
    if lines::is_fresh(t) {
        t = tablet::yubi_fresh_total(t.pole);
    }
    let s = lent::scan_own(t, call.curve, call.first);
    let a = YubiScanned {
        number: s.answer.number,
        place: s.answer.place,
        length: s.answer.length,
        total: s.total,
    };
    Some(scanned(text, a))
}

// And into a lent total inside Rattle, from a fresh one; any other is left to C's.
fn scan_inside(text: &mut [u8], call: Call) -> Option<usize> {
    let t = lines::running_of(call.total)?;
    if !lines::is_fresh(t) {
        return scan(text, call);
    }
    let s = scan_record::lent::scan_own(Running::fresh(t.pole), call.curve, call.first);
    let (number, place) = match s.report {
        Ok(()) => (0, 0),
        Err(r) => (r.by.into(), r.place),
    };
    let a = YubiScanned {
        number,
        place,
        length: 0,
        total: s.total.into(),
    };
    Some(scanned(text, a))
}

fn write_file(text: &mut [u8], call: Call, out: &mut [u8]) -> Option<usize> {
    let pole = lines::pole_of(call.total)?;
    let a = tablet::yubi_write_pole_file(pole, call.curve, call.first, out);
    Some(written(text, a, out))
}

// Those with an output that answer number, place and length alone; None of any other.
fn write(operation: Operation, call: Call, out: &mut [u8]) -> Option<YubiAnswer> {
    let a = match operation {
        Operation::RewriteCurve => tablet::yubi_rewrite_curve(call.curve, out),
        Operation::RewriteDivisor => tablet::yubi_rewrite_divisor(call.curve, call.first, out),
        Operation::Add => tablet::yubi_add(call.curve, call.first, call.second, out),
        Operation::Double => tablet::yubi_double(call.curve, call.first, out),
        Operation::Opposite => tablet::yubi_opposite(call.curve, call.first, out),
        Operation::Split => tablet::yubi_split(call.curve, call.first, out),
        Operation::NextDivisor => tablet::yubi_next_divisor(call.curve, call.first, out),
        _ => return None,
    };
    Some(a)
}

// Both multiply calls; None of any other.
fn multiply(operation: Operation, call: Call, out: &mut [u8]) -> Option<YubiMultiple> {
    let a = match operation {
        Operation::Multiply => { tablet::yubi_multiply(call.curve, call.first, call.second, out) }
        Operation::InversionFree => {
            tablet::yubi_multiply_inversion_free(call.curve, call.first, call.second, out)
        }
        _ => return None,
    };
    Some(a)
}

fn check(operation: Operation, call: Call) -> Option<YubiAnswer> {
    match operation {
        Operation::CheckCurve => Some(tablet::yubi_check_curve(call.curve)),
        Operation::CheckDivisor => Some(tablet::yubi_check_divisor(call.curve, call.first)),
        Operation::CheckOrder => Some(tablet::yubi_check_order(
            call.curve,
            call.first,
            call.second,
            call.total,
        )),
        _ => None,
    }
}

// The frame's line at the front of the text; answers its length, None where there is no such operation, a scan's total isn't 68 bytes or a
// written file's pole 4.
pub fn line(call: Call, out: &mut [u8], text: &mut [u8]) -> Option<usize> {
    let operation = Operation::try_from(call.operation).ok()?;
    if let Some(a) = check(operation, call) {
        return Some(checked(text, a));
    }
    if let Some(a) = write(operation, call, out) {
        return Some(written(text, a, out));
    }
    if let Some(a) = multiply(operation, call, out) {
        return Some(multiplied(text, a, out));
    }
    match operation {
        Operation::Label => Some(test_text::label(text, call.curve)),
        Operation::TotalBatch => {
            let a = tablet::yubi_total_batch(call.curve, call.first, out);
            Some(totalled(text, a, out))
        }
        Operation::FirstRepeat => {
            let a = tablet::yubi_first_repeat(call.curve, call.first);
            Some(repeated(text, a))
        }
        Operation::Scan => scan(text, call),
        Operation::ScanLent => scan_lent(text, call),
        Operation::ScanInside => scan_inside(text, call),
        Operation::WritePoleFile => write_file(text, call, out),
        Operation::ReadPoleFile => {
            let a = tablet::yubi_read_pole_file(call.first, out);
            Some(pole_read(text, a, out))
        }
        _ => None,
    }
}
