// What the program prints, made on slices: each function's promise fixes every byte. Nothing here opens, reads or writes a file.
#![tactic(auto)]

ghost use Rattle.std.specs.Prelude.{◌≡◌, take};
ghost use Rattle.text_lines.specs.Printed.{Printed};
ghost use Rattle.text_lines.specs.Rule.Text.{text, text_of};
ghost use Rattle.text_tally.specs.Read.{file_of, FileIs, FilesAre};
ghost use Rattle.text_tally.specs.Tallied.{OwnPlaces, ShortPlaces, Printable, shown, lines_of_list, Shows};

use call_batch::places::Repeat;
use divisor::Divisor;
use field::Modulus;
use refusals::{Refusal, Refused};
use text_lines::Places;

pub mod census;

// What the three lines of a pole's list tell.
#[derive(Clone, Copy)]
struct PoleList {
    count: u64,
    repeat: Option<Places>,
    total: Divisor,
    m: Modulus,
}

// The first n bytes of s, or all where it has fewer.
pub fn front(s: &[u8], n: usize) -> &[u8]
    ensures bytes { result.now ≡ take n s.now }
    ensures place { result.ref_ptr ≡ s.entry.ref_ptr }
{
    if n < s.len() {
        return &s[..n];
    }
    s
}

// A file's bytes, None where it can't be opened or read: where they can be taken.
fn whole(file: Option<&[u8]>) -> Result<&[u8], Refusal>
    ensures { FileIs (file_of file.entry) result }
{
    let s = file.ok_or(Refusal::Unreadable)?;
    if refusals::MOST_BYTES < s.len() {
        return Err(Refusal::FileLength);
    }
    Ok(s)
}

// The bytes of both files, the curve's looked at first.
fn both<'a>(
    curve: Option<&'a [u8]>,
    batch: Option<&'a [u8]>,
) -> Result<(&'a [u8], &'a [u8]), Refused>
    ensures { FilesAre (file_of curve.entry) (file_of batch.entry) result }
{
    let s = whole(curve)?;
    let t = whole(batch)?;
    Ok((s, t))
}

// The rule has no places on a refusal; a batch that has a total is not refused here. By hand, since text_lines stands on no call.
fn places_of(r: Result<Option<Repeat>, Refused>) -> Option<Places>
    ensures own { OwnPlaces r result }
    ensures short { ShortPlaces result }
{
    match r {
        Ok(Some(r)) => Some(Places {
            first: r.first,
            second: r.second,
        }),
        Ok(None) => None,
        Err(_) => None,
    }
}

fn read_bytes(curve: &[u8], batch: &[u8]) -> Result<PoleList, Refused>
    ensures { Shows (text_of curve.now batch.now) result }
{
    let c = record_curve::read_curve(curve)?;
    let t = call_total::total_on(c, batch)?;
    let repeat = places_of(call_batch::repeat::repeat_on(c, batch));
    Ok(PoleList {
        count: t.count,
        repeat,
        total: t.divisor,
        m: c.prime.m,
    })
}

fn put_list(t: PoleList, out: &mut [u8; 256]) -> usize
    requires { Printable (Ok t) }
    ensures { Printed out.old (lines_of_list t) out.new result }
{
    let a = text_lines::put_count(out, 0, t.count);
    let b = text_lines::put_repeat(out, a, t.repeat);
    text_lines::put_total(out, b, t.total, t.m)
}

fn print(t: Result<PoleList, Refused>, out: &mut [u8; 256]) -> usize
    requires { Printable t }
    ensures { Printed out.old (shown t) out.new result }
{
    match t {
        Ok(t) => put_list(t, out),
        Err(r) => text_lines::refused(r, out),
    }
}

// The three lines of a curve's and a batch's bytes, or the line of what refuses them: its length, and the text at the front of the output.
pub fn tally(curve: &[u8], batch: &[u8], out: &mut [u8; 256]) -> usize
    ensures { Printed out.old (text_of curve.now batch.now) out.new result }
{
    print(read_bytes(curve, batch), out)
}

// The same from the bytes of the two files, None of one that can't be opened or read.
pub fn tally_files(curve: Option<&[u8]>, batch: Option<&[u8]>, out: &mut [u8; 256]) -> usize
    ensures { Printed out.old (text (file_of curve.entry) (file_of batch.entry)) out.new result }
{
    match both(curve, batch) {
        Ok((s, t)) => tally(s, t, out),
        Err(r) => text_lines::refused(r, out),
    }
}
