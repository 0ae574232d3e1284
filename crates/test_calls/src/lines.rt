// Each of C's answers as the line that tools/README.md says, a running total by its 68 bytes and a pole's number by its 4. For tests: beyond how
// many bytes these are, the contracts say no more than safety asks.
ghost use Rattle.std.specs.Prelude.{◌≡◌, ◌↔◌, length, IsSome};

use scan_flat::{YubiRunning, YubiScanned};
use tablet_answers::{YubiAnswer, YubiMultiple, YubiPole, YubiRepeat, YubiTotal};

pub fn checked(text: &mut [u8], a: YubiAnswer) -> usize {
    test_text::plain(text, &[a.number, a.place, a.length])
}

pub fn repeated(text: &mut [u8], a: YubiRepeat) -> usize {
    test_text::plain(text, &[a.number, a.place, a.length, a.first, a.second])
}

pub fn written(text: &mut [u8], a: YubiAnswer, out: &[u8]) -> usize {
    test_text::with_output(text, &[a.number, a.place, a.length], out)
}

pub fn multiplied(text: &mut [u8], a: YubiMultiple, out: &[u8]) -> usize {
    test_text::with_output(
        text,
        &[a.number, a.place, a.length, a.doublings, a.additions],
        out,
    )
}

pub fn totalled(text: &mut [u8], a: YubiTotal, out: &[u8]) -> usize {
    test_text::with_output(text, &[a.number, a.place, a.length, a.count], out)
}

pub fn pole_read(text: &mut [u8], a: YubiPole, out: &[u8]) -> usize {
    test_text::with_output(text, &[a.number, a.place, a.length, a.pole.into()], out)
}

pub fn scanned(text: &mut [u8], a: YubiScanned) -> usize {
    let t = a.total;
    let values = [
        a.number,
        a.place,
        a.length,
        t.weight,
        t.u0,
        t.u1,
        t.u2,
        t.v0,
        t.v1,
        t.v2,
        t.count,
        t.pole.into(),
    ];
    test_text::plain(text, &values)
}

pub fn running(s: &[u8]) -> YubiRunning
    requires { length s.now ≡ 68 }
{
    YubiRunning {
        weight: record_bytes::read64(s, 0),
        u0: record_bytes::read64(s, 8),
        u1: record_bytes::read64(s, 16),
        u2: record_bytes::read64(s, 24),
        v0: record_bytes::read64(s, 32),
        v1: record_bytes::read64(s, 40),
        v2: record_bytes::read64(s, 48),
        count: record_bytes::read64(s, 56),
        pole: record_bytes::read32(s, 64) as u32,
    }
}

// None of any other number of bytes.
pub fn running_of(s: &[u8]) -> Option<YubiRunning>
    ensures { IsSome result ↔ (length s.now ≡ 68) }
{
    if s.len() != 68 {
        return None;
    }
    Some(running(s))
}

pub fn pole(s: &[u8]) -> u32
    requires { length s.now ≡ 4 }
{
    record_bytes::read32(s, 0) as u32
}

// None of any other number of bytes.
pub fn pole_of(s: &[u8]) -> Option<u32>
    ensures { IsSome result ↔ (length s.now ≡ 4) }
{
    if s.len() != 4 {
        return None;
    }
    Some(pole(s))
}

pub fn is_fresh(t: YubiRunning) -> bool {
    t.weight | t.u0 | t.u1 | t.u2 | t.v0 | t.v1 | t.v2 | t.count == 0
}
