// The lines that the program prints, put on slices: each function's promise fixes every byte.
#![tactic(auto)]

ghost use Rattle.refusals.specs.Refusal.{number_of};
ghost use Rattle.divisor.specs.Divisors.{pair, Held};
ghost use Rattle.text_lines.specs.digits.Put.{PutAt, Room};
ghost use Rattle.text_lines.specs.Lines.{count_line, repeat_line, record_line, total_line, refused_line, spaced, two, places};
ghost use Rattle.text_lines.specs.Printed.{Printed, places_of};

use divisor::Divisor;
use field::Modulus;
use refusals::Refused;

pub mod digits;

// The places of the first repeat, counted from 1: call_batch's Repeat again, so that lines stand on no call.
#[derive(Clone, Copy, Debug, PartialEq, Eq)]
pub struct Places {
    pub first: u64,
    pub second: u64,
}

// Two numbers, one space between them.
fn put_two(out: &mut [u8; 256], a: usize, i: u64, j: u64) -> usize
    requires { Room a (two i j) }
    ensures { PutAt out.old a (two i j) out.new result }
{
    let b = digits::put_decimal(out, a, i);
    let c = digits::put_byte(out, b, b' ');
    digits::put_decimal(out, c, j)
}

pub fn put_count(out: &mut [u8; 256], a: usize, n: u64) -> usize
    requires { Room a (count_line n) }
    ensures { PutAt out.old a (count_line n) out.new result }
{
    let b = digits::put_bytes(out, a, b"count ");
    let c = digits::put_decimal(out, b, n);
    digits::put_byte(out, c, b'\n')
}

// No place is 0: the paper's 0 and 0 are none.
fn put_places(out: &mut [u8; 256], a: usize, r: Option<Places>) -> usize
    requires { Room a (places (places_of r).first (places_of r).second) }
    ensures { PutAt out.old a (places (places_of r).first (places_of r).second) out.new result }
{
    match r {
        Some(r) if 0 < r.first => put_two(out, a, r.first, r.second),
        _ => digits::put_bytes(out, a, b"none"),
    }
}

pub fn put_repeat(out: &mut [u8; 256], a: usize, r: Option<Places>) -> usize
    requires { Room a (repeat_line (places_of r)) }
    ensures { PutAt out.old a (repeat_line (places_of r)) out.new result }
{
    let b = digits::put_bytes(out, a, b"repeat ");
    let c = put_places(out, b, r);
    digits::put_byte(out, c, b'\n')
}

// Numbers, each after a space.
fn put_numbers(out: &mut [u8; 256], a: usize, x: &[u64]) -> usize
    requires { Room a (spaced x.now) }
    ensures { PutAt out.old a (spaced x.now) out.new result }
{
    let mut b = a;
    for n in x {
        let c = digits::put_byte(out, b, b' ');
        b = digits::put_hex(out, c, 16, *n);
    }
    b
}

// A record's line: a divisor's weight and its numbers.
pub fn put_record(out: &mut [u8; 256], a: usize, t: Divisor, m: Modulus) -> usize
    requires { Held m t × Room a (record_line m.p (pair m t)) }
    ensures { PutAt out.old a (record_line m.p (pair m t)) out.new result }
{
    let w = t.weight();
    let x = record_numbers::write::numbers_of(t, m);
    let c = digits::put_hex(out, a, 2, w as u64);
    let d = put_numbers(out, c, &x[..2 * w]);
    digits::put_byte(out, d, b'\n')
}

pub fn put_total(out: &mut [u8; 256], a: usize, t: Divisor, m: Modulus) -> usize
    requires { Held m t × Room a (total_line m.p (pair m t)) }
    ensures { PutAt out.old a (total_line m.p (pair m t)) out.new result }
{
    let b = digits::put_bytes(out, a, b"total ");
    put_record(out, b, t, m)
}

// A record's line by itself, at the front.
pub fn record(t: Divisor, m: Modulus, out: &mut [u8; 256]) -> usize
    requires { Held m t }
    ensures { Printed out.old (record_line m.p (pair m t)) out.new result }
{
    put_record(out, 0, t, m)
}

// The line of a refusal: its number and its place.
pub fn refusal(number: u64, place: u64, out: &mut [u8; 256]) -> usize
    ensures { Printed out.old (refused_line number place) out.new result }
{
    let a = digits::put_bytes(out, 0, b"refused ");
    let b = put_two(out, a, number, place);
    digits::put_byte(out, b, b'\n')
}

// The same, by which refusal it is.
pub fn refused(r: Refused, out: &mut [u8; 256]) -> usize
    ensures { Printed out.old (refused_line (number_of r.by) r.place) out.new result }
{
    refusal(r.by.into(), r.place, out)
}
