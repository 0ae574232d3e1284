// For tests: what a reader has, put at the front of a lent buffer, as much as there is room for.
ghost use Rattle.std.specs.Prelude.{◌≡◌, ◌≤◌, length, IfOk};

use std::io;
use std::io::Read;

pub fn read<'a>(source: &mut impl Read, buf: &'a mut [u8]) -> io::Result<&'a [u8]>
    ensures within { IfOk result (λ s. length s.now ≤ length buf.old) }
    ensures front { IfOk result (λ s. s.ref_ptr ≡ buf.entry.ref_ptr) }
{
    let mut end = 0;
    // No range: each read says how much it brought.
    while end < buf.len() {
        let more = source.read(&mut buf[end..])?;
        if more == 0 {
            break;
        }
        end += more;
    }
    Ok(&buf[..end])
}
