// Residues at the edges of their range, 0 to 2p - 1: the numbers inside are 0, 1, p - 1, p, p + 1 and 2p - 1. 2^-64 modulo p, read as a residue,
// holds 1; its opposite holds 2p - 1, and settled p - 1; a product with zero holds p. Each row has the numbers inside its operands.
ghost use Rattle.field.specs.Numbers.{Odd};
ghost use Rattle.field.specs.Residues.{Kept};

use field::{Modulus, Residue};
use std::io;

fn last(rt: &impl Print, r: Residue, m: Modulus) -> io::Result<()>
    requires { Kept m r }
{
    crate::line(rt, r.settle(m).number(m))
}

// The k-th operand, where n is 2^-64 modulo p: x holds 1, y 2p - 1, z 0, w p, v p + 1.
fn operand(k: usize, n: u64, m: Modulus) -> Residue
    ensures { Kept m result }
{
    let x = test_text::numbers::residue(n, m);
    let y = x.neg(m);
    let z = x.sub(x, m);
    let w = z.mul(z, m);
    let v = x.add(w, m);
    match k {
        0 => z,
        1 => x,
        2 => y.settle(m),
        3 => w,
        4 => v,
        _ => y,
    }
}

fn print_powers(rt: &impl Print, a: Residue, m: Modulus) -> io::Result<()>
    requires { Kept m a }
{
    crate::print_kept(rt, a.power(0, m), m)?;
    crate::print_kept(rt, a.power(m.number(), m), m)?;
    last(rt, a.power(18446744073709551615, m), m)
}

fn print_one(rt: &impl Print, a: Residue, m: Modulus) -> io::Result<()>
    requires { Kept m a }
{
    crate::item(rt, a.to_raw())?;
    crate::print_kept(rt, a.neg(m), m)?;
    crate::print_kept(rt, a.dbl(m), m)?;
    crate::print_kept(rt, a.half(m), m)?;
    crate::print_kept(rt, a.sqr(m), m)?;
    print_powers(rt, a, m)
}

fn print_four(
    rt: &impl Print,
    a: Residue,
    b: Residue,
    c: Residue,
    d: Residue,
    m: Modulus,
) -> io::Result<()>
    requires { Kept m a × Kept m b × Kept m c × Kept m d }
{
    crate::print_kept(rt, a.mul_sum(b, c, m), m)?;
    crate::print_kept(rt, a.mul_diff(b, c, m), m)?;
    crate::print_kept(rt, a.dot(b, c, d, m), m)?;
    crate::print_kept(rt, a.cross(b, c, d, m), m)
}

// With a third that holds 0, p and 2p - 1, and a fourth that holds 2p - 1.
fn print_thirds(rt: &impl Print, a: Residue, b: Residue, n: u64, m: Modulus) -> io::Result<()>
    requires { Kept m a × Kept m b }
{
    let d = operand(5, n, m);
    print_four(rt, a, b, operand(0, n, m), d, m)?;
    print_four(rt, a, b, operand(3, n, m), d, m)?;
    print_four(rt, a, b, d, d, m)
}

fn print_two(rt: &impl Print, a: Residue, b: Residue, n: u64, m: Modulus) -> io::Result<()>
    requires { Kept m a × Kept m b }
{
    crate::item(rt, a.to_raw())?;
    crate::item(rt, b.to_raw())?;
    print_thirds(rt, a, b, n, m)?;
    crate::print_kept(rt, a.add(b, m), m)?;
    crate::print_kept(rt, a.sub(b, m), m)?;
    last(rt, a.mul(b, m), m)
}

fn print_ones(rt: &impl Print, n: u64, m: Modulus) -> io::Result<()> {
    for k in 0..6 {
        print_one(rt, operand(k, n, m), m)?;
    }
    Ok(())
}

fn print_twos(rt: &impl Print, n: u64, m: Modulus) -> io::Result<()> {
    for k in 0..36 {
        print_two(rt, operand(k / 6, n, m), operand(k % 6, n, m), n, m)?;
    }
    Ok(())
}

fn try_edges(rt: &impl Print, p: u64, n: u64) -> io::Result<()>
    requires { Odd p }
{
    let m = Modulus::of(p);
    crate::line(rt, m.number())?;
    print_ones(rt, n, m)?;
    print_twos(rt, n, m)
}

// Each p with 2^-64 modulo it.
pub fn print_edges(rt: &impl Print) -> io::Result<()> {
    try_edges(rt, 3, 1)?;
    try_edges(rt, 5, 1)?;
    try_edges(rt, 7, 4)?;
    try_edges(rt, 65537, 1)?;
    try_edges(rt, 2147483647, 536870912)?;
    try_edges(rt, 693386350578511591, 379138801703931949)?;
    try_edges(rt, 1945555039024054273, 205195258022068224)?;
    try_edges(rt, 2305843009213693951, 288230376151711744)
}
