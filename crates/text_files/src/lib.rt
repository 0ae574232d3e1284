// Files by name, for the programs: the one library here that reads files and prints. No contract can say what a file holds or what is written; what
// is promised is that the bytes answered stand at the front of the buffer, inside it.
#![tactic(auto)]

ghost use Rattle.std.specs.Prelude.{length};
ghost use Rattle.divisor.specs.Divisors.{Held};
ghost use Rattle.text_files.specs.Files.{Within, AtFront};

use curve::Curve;
use divisor::Divisor;
use field::Modulus;
use std::io::Read;
use std::rt::Files;
use std::{fs, io};

// Reads on until the end, a failed read or a full buffer. A read that fails, as of a directory, isn't the end of a file.
fn read_open<'a>(file: &mut impl Read, buf: &'a mut [u8]) -> Option<&'a [u8]>
    ensures within { Within result (length buf.old) }
    ensures front { AtFront result buf.entry }
{
    let mut n = 0;
    // No range: each read says how much it brought.
    while n < buf.len() {
        let more = file.read(&mut buf[n..]).ok()?;
        if more == 0 {
            break;
        }
        n += more;
    }
    Some(text_tally::front(buf, n))
}

// The file's bytes, at the front of the buffer, as many as it has room for; None of one that can't be opened or read. Paths of std are text: one
// that isn't can't be read.
pub fn read<'a>(rt: &impl Files, path: &[u8], buf: &'a mut [u8]) -> Option<&'a [u8]>
    ensures within { Within result (length buf.old) }
    ensures front { AtFront result buf.entry }
{
    let name = str::from_utf8(path).ok()?;
    let mut file = fs::open(rt, name).ok()?;
    read_open(&mut file, buf)
}

// Writes to standard output what crate `text_tally` makes of the two files, and nothing else. The buffers have room for one byte more than a file
// may have, so that a file that is too long shows.
pub fn print(rt: &(impl Files + Print), curve: &[u8], batch: &[u8]) -> io::Result<()> {
    let mut s = [0u8; 65537];
    let mut t = [0u8; 65537];
    let c = read(rt, curve, &mut s);
    let b = read(rt, batch, &mut t);
    let mut out = [0u8; 256];
    let n = text_tally::tally_files(c, b, &mut out);
    rt.write_all(&out[..n])
}

// Writes a divisor's line to standard output.
fn print_record(rt: &impl Print, d: Divisor, m: Modulus) -> io::Result<()>
    requires { Held m d }
{
    let mut out = [0u8; 256];
    let n = text_lines::record(d, m, &mut out);
    rt.write_all(&out[..n])
}

// The lines of a training curve, from the neutral divisor on, next after next.
fn print_lines(rt: &impl Print, c: Curve) -> io::Result<()> {
    let mut d = Divisor::neutral();
    // No range: only the next divisor says whether there is one more.
    loop {
        print_record(rt, d, c.prime.m)?;
        let Some(y) = divisor_census::next_valid(c, d) else {
            return Ok(());
        };
        d = y;
    }
}

// Writes to standard output the census of the training curve in a file, or the line of what refuses it, and nothing else.
pub fn print_census(rt: &(impl Files + Print), curve: &[u8]) -> io::Result<()> {
    let mut s = [0u8; 65537];
    let f = read(rt, curve, &mut s);
    let mut out = [0u8; 256];
    match text_tally::census::open(f, &mut out) {
        Ok(c) => print_lines(rt, c),
        Err(line) => rt.write_all(&out[..line.length]),
    }
}
