// The pole file (W-209), written and read: a floor above the calls, by their promises alone. The reader is the writer's check on parts of the file, its refusals told apart by the
// count.
#![tactic(auto)]

ghost use Rattle.std.specs.Prelude.{◌≡◌, ◌+◌, ◌≤◌, length};
ghost use Rattle.std.proofs.lemmas.List.Edits.{sets};
ghost use Rattle.rules.specs.Checks.{refused, go_on};
ghost use Rattle.rules.specs.Records.{read_curve};
ghost use Rattle.rules.specs.Calls.{put, write, deliver};
ghost use Rattle.call_answer.specs.Answers.{Wrote};
ghost use Rattle.rules.specs.Pole.PoleFile.{word16, bytes16, head_bytes, file_bytes, both_parts, read_parts, read_behind, read_file, write_file};
ghost use Rattle.call_pole.specs.Files.{PoleIs, Ends, PartsAre, InFile};

use refusals::{Refusal, Refused};

// The mark and the version of the file.
const MARK: [u8; 3] = [72, 74, 80];

const VERSION: u16 = 1;

// What a pole file was read as: the pole's number, and how many bytes were written.
#[derive(Clone, Copy, Debug, PartialEq, Eq)]
pub struct PoleRead {
    pub length: u64,
    pub pole: u32,
}

// ---- numbers of two bytes, and the head
fn read16(s: &[u8], a: usize) -> u16
    requires { a + 2 ≤ length s.now }
    ensures { result ≡ word16 s.now a }
{
    u16::from_be_bytes([s[a], s[a + 1]])
}

// The two lowest bytes of a number.
fn put16(out: &mut [u8], a: usize, x: u64)
    requires { a + 2 ≤ length out.old }
    ensures { out.new ≡ sets out.old a (bytes16 x) }
{
    record_bytes::write_bytes(out, a, &((x % 65536) as u16).to_be_bytes());
}

// The mark, the version and the pole.
fn put_head(out: &mut [u8], pole: u32)
    requires { 9 ≤ length out.old }
    ensures { out.new ≡ sets out.old 0 (head_bytes pole) }
{
    record_bytes::write_bytes(out, 0, &MARK);
    record_bytes::write_bytes(out, 3, &VERSION.to_be_bytes());
    record_bytes::write_bytes(out, 5, &pole.to_be_bytes());
}

// ---- the writer
fn write_file(
    pole: u32,
    curve: &[u8],
    count: u64,
    batch: &[u8],
    out: &mut [u8],
) -> Result<u64, Refused>
    ensures { Wrote result out.new (write out.old (file_bytes pole curve.now count batch.now)) }
{
    let c = curve.len();
    let b = batch.len();
    let room = out.len();
    if room < 11 || room - 11 < c || room - 11 - c < b {
        return Err(Refusal::OutputLength.at(0));
    }
    put_head(out, pole);
    record_bytes::write_bytes(out, 9, curve);
    put16(out, 9 + c, count);
    record_bytes::write_bytes(out, 11 + c, batch);
    Ok((11 + c + b) as u64)
}

#[tactic(auto, unfolding(rules::specs::Pole::PoleFile::write_file))]
pub fn write_pole_file(
    pole: u32,
    curve: &[u8],
    batch: &[u8],
    out: &mut [u8],
) -> Result<u64, Refused>
    ensures { Wrote result out.new (write_file pole curve.now batch.now out.old) }
{
    let k = call_batch::check_batch(curve, batch)?;
    write_file(pole, curve, k, batch, out)
}

// ---- the reader
// Where the curve record that the bytes begin with ends: as its g says and, in version 2, its k; all of them where it is cut short.
fn curve_end(s: &[u8]) -> usize
    ensures { Ends s.now result }
{
    let all = s.len();
    if all < 6 {
        return all;
    }
    let n = 22 + 16 * (record_bytes::wide(s[5]) as usize);
    if read16(s, 3) == 1 {
        return n.min(all);
    }
    if all < n + 9 {
        return all;
    }
    (n + 9 + 8 * (record_bytes::wide(s[n + 8]) as usize)).min(all)
}

// A count that isn't there or is too high: the curve's number first, by the check of a batch without records.
#[tactic(auto, using(crate::proofs::Parts::after_done, crate::proofs::Parts::after_refused))]
fn without_count(curve: &[u8]) -> Result<(), Refused>
    ensures { PartsAre result (go_on (read_curve curve.now) (λ c. refused 23 0)) }
{
    call_batch::check_batch(curve, b"")?;
    Err(Refusal::PoleFileLength.at(0))
}

// What a batch was read as, in a file whose count is n: a record behind the n-th, one cut short, too few or too many are 23.
fn in_file(r: Result<u64, Refused>, n: u64) -> Result<(), Refused>
    ensures { InFile n r result }
{
    match r {
        Ok(k) if k == n => Ok(()),
        Err(e) if e.by != Refusal::DivisorLength && e.by != Refusal::Full && e.place <= n => Err(e),
        _ => Err(Refusal::PoleFileLength.at(0)),
    }
}

// The curve, then the count and the records of what stands behind it.
fn check_parts(curve: &[u8], rest: &[u8]) -> Result<(), Refused>
    ensures { PartsAre result (read_parts curve.now rest.now) }
{
    if rest.len() < 2 {
        return without_count(curve);
    }
    let n = read16(rest, 0) as u64;
    if refusals::MOST_COUNT < n {
        return without_count(curve);
    }
    in_file(call_batch::check_batch(curve, &rest[2..]), n)
}

// The curve record, then the divisor records.
fn write_both(pole: u32, a: &[u8], b: &[u8], out: &mut [u8]) -> Result<PoleRead, Refused>
    ensures { PoleIs result out.new (put 0 out.old (both_parts pole a.now b.now)) }
{
    let c = a.len();
    let d = b.len();
    let room = out.len();
    if room < c || room - c < d {
        return Err(Refusal::OutputLength.at(0));
    }
    record_bytes::write_bytes(out, 0, a);
    record_bytes::write_bytes(out, c, b);
    Ok(PoleRead {
        length: (c + d) as u64,
        pole,
    })
}

// What stands behind the head.
fn read_rest(pole: u32, s: &[u8], out: &mut [u8]) -> Result<PoleRead, Refused>
    ensures { PoleIs result out.new (deliver 0 out.old (read_behind pole s.now)) }
{
    let e = curve_end(s);
    check_parts(&s[..e], &s[e..])?;
    write_both(pole, &s[..e], &s[e + 2..], out)
}

pub fn read_pole_file(file: &[u8], out: &mut [u8]) -> Result<PoleRead, Refused>
    ensures { PoleIs result out.new (read_file file.now out.old) }
{
    if file.len() < 9 {
        return Err(Refusal::PoleFileLength.at(0));
    }
    if !record_bytes::marked(file, MARK) {
        return Err(Refusal::PoleFileMark.at(0));
    }
    if read16(file, 3) != VERSION {
        return Err(Refusal::PoleFileVersion.at(0));
    }
    read_rest(record_bytes::read32(file, 5) as u32, &file[9..], out)
}
