// Prints the line of each frame in the files `vectors.a`, `vectors.b` and on, then of those in `corners.a` and on, each at most 65,536 bytes. The
// files and the expected text are made by tools/make/vectors.py and tools/make/corners.py, which share no code with the product. tools/README.md has the
// form of both. For tests: the contracts say no more than safety asks.
#![tactic(auto)]

ghost use Rattle.std.specs.Prelude.{◌≤◌, length, IfSome};
ghost use Rattle.test_text.specs.frames.Frames.{InOrder};

use std::rt::Files;
use std::{fs, io};
use test_calls::Call;
use test_calls::operation::Operation;
use test_text::frames::Frame;

// What each byte of an output holds before a call, and the longest output.
const GUARD: u8 = 165;

const MOST_OUTPUT: usize = 512;

// More than the length of such a line.
const MOST_LINE: usize = 512;

// The most bytes of a file, and of its lines.
const MOST_BYTES: usize = 65536;

// What the frame at the front of s asks.
fn call_of(s: &[u8], f: Frame) -> Call<'_>
    requires { InOrder f × (f.end ≤ length s.now) }
{
    Call {
        operation: s[0],
        curve: &s[21..f.first],
        first: &s[f.first..f.second],
        second: &s[f.second..f.total],
        total: &s[f.total..f.end],
    }
}

// The line of a call into an output of so many bytes, at the front of the text.
fn line_of<'a>(call: Call, output: usize, text: &'a mut [u8]) -> Option<&'a [u8]>
    ensures { IfSome result (λ s. length s.now ≤ length text.old) }
{
    let mut out = [GUARD; MOST_OUTPUT];
    let n = test_calls::line(call, out.get_mut(..output)?, text)?;
    text.get(..n)
}

// Whether another operation has this line for the call.
fn agrees(call: Call, other: Operation, output: usize, wanted: &[u8]) -> bool {
    let mut again = [0; MOST_LINE];
    let call = Call {
        operation: other as u8,
        ..call
    };
    line_of(call, output, &mut again) == Some(wanted)
}

// The length of the frame's line; None where the frame is malformed, or where another call that it is run through has another line.
fn line(s: &[u8], f: Frame, text: &mut [u8]) -> Option<usize>
    requires { InOrder f × (f.end ≤ length s.now) }
    ensures { IfSome result (λ n. n ≤ length text.new) }
{
    let call = call_of(s, f);
    let operation = Operation::try_from(call.operation).ok()?;
    let wanted = line_of(call, f.output, text)?;
    for other in operation.others() {
        if !agrees(call, *other, f.output, wanted) {
            return None;
        }
    }
    Some(wanted.len())
}

// The lines of all frames, one after the other, at the front of the text; answers their length. They end at a malformed frame, so that the
// comparison fails, and where a line has no room.
fn lines(s: &[u8], text: &mut [u8]) -> usize
    ensures { result ≤ length text.new }
{
    let mut at = 0;
    let mut end = 0;
    // No range: each frame says where the next one begins.
    while let Some(f) = test_text::frames::whole(&s[at..]) {
        let Some(n) = line(&s[at..], f, &mut text[end..]) else {
            break;
        };
        if n == 0 {
            break;
        }
        at += f.end;
        end += n;
    }
    end
}

// A file that isn't there has no lines.
fn print_file(rt: &(impl Files + Print), path: &str) -> io::Result<()> {
    let mut data = [0u8; MOST_BYTES];
    let mut text = [0u8; MOST_BYTES];
    let Ok(mut file) = fs::open(rt, path) else {
        return Ok(());
    };
    let s = test_text::input::read(&mut file, &mut data)?;
    let k = lines(s, &mut text);
    rt.write_all(&text[..k])
}

fn main(rt: HostRuntime) -> io::Result<()> {
    for letter in b'a'..=b'z' {
        let part = [b'v', b'e', b'c', b't', b'o', b'r', b's', b'.', letter];
        if let Ok(path) = str::from_utf8(&part) {
            print_file(&rt, path)?;
        }
    }
    print_file(&rt, "corners.a")?;
    print_file(&rt, "corners.b")
}
