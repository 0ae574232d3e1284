// Numbers as bytes, the highest byte first: 8 bytes read as a number, and numbers written one after the other. And the mark that a record begins with.
#![tactic(auto)]

ghost use Rattle.std.specs.Prelude.{◌≡◌, ◌+◌, ◌*◌, ◌≤◌, ◌<◌, length, take};
ghost use Rattle.std.proofs.lemmas.List.Edits.{sets};
ghost use Rattle.rules.specs.Bytes.{word32, word64, bytes64, all_bytes};
ghost use Rattle.record_bytes.specs.Marks.{begins_with};

pub fn wide(x: u8) -> u64
    ensures { (result ≡ x) × (result < 256) }
{
    x as u64
}

pub fn marked(s: &[u8], mark: [u8; 3]) -> bool
    requires { 3 ≤ length s.now }
    ensures { result ≡ begins_with mark s.now }
{
    s.starts_with(&mark)
}

pub fn read32(s: &[u8], a: usize) -> u64
    requires { a + 4 ≤ length s.now }
    ensures within { result < 4294967296 }
    ensures word { result ≡ word32 s.now a }
{
    u64::from(u32::from_be_bytes([s[a], s[a + 1], s[a + 2], s[a + 3]]))
}

#[tactic(auto, unfolding(rules::specs::Bytes::word64))]
pub fn read64(s: &[u8], a: usize) -> u64
    requires { a + 8 ≤ length s.now }
    ensures { result ≡ word64 s.now a }
{
    u64::from_be_bytes([
        s[a],
        s[a + 1],
        s[a + 2],
        s[a + 3],
        s[a + 4],
        s[a + 5],
        s[a + 6],
        s[a + 7],
    ])
}

fn write64(out: &mut [u8], a: usize, x: u64)
    requires { a + 8 ≤ length out.old }
    ensures { out.new ≡ sets out.old a (bytes64 x) }
{
    out[a..a + 8].copy_from_slice(&x.to_be_bytes());
}

// The numbers, one after the other from a on.
pub fn write_words(out: &mut [u8], a: usize, x: &[u64])
    requires { a + 8 * length x.now ≤ length out.old }
    ensures { out.new ≡ sets out.old a (all_bytes x.now) }
{
    for k in 0..x.len() {
        write64(out, a + 8 * k, x[k]);
    }
}

// Bytes written as they stand, from a on; the rest of the output stays. By a loop: of a `copy_from_slice` of any length the compiler makes a call of
// memmove, which C's caller would have to link beside memcpy and memset.
pub fn write_bytes(out: &mut [u8], a: usize, s: &[u8])
    requires { a + length s.now ≤ length out.old }
    ensures { out.new ≡ sets out.old a s.now }
{
    for k in 0..s.len() {
        out[a + k] = s[k];
    }
}
