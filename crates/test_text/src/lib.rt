// Lines of text at the front of a lent buffer; each function answers where the text ends. Text that has no room is left out. For tests: the
// contracts say no more than safety asks.
#![tactic(auto)]

ghost use Rattle.std.specs.Prelude.{◌<◌};

pub mod frames;
pub mod input;
pub mod numbers;

fn put(text: &mut [u8], at: usize, b: u8) -> usize {
    if at < text.len() {
        text[at] = b;
        return at + 1;
    }
    at
}

// The digit of n at a power of ten; none where n is below it.
fn digit(text: &mut [u8], at: usize, n: u64, unit: u64) -> usize
    requires { 0 < unit }
{
    if n < unit {
        return at;
    }
    put(text, at, b'0' + (n / unit % 10) as u8)
}

fn decimal(text: &mut [u8], at: usize, n: u64) -> usize {
    let mut unit: u64 = 10000000000000000000;
    let mut end = at;
    // No range: each turn has a tenth of the unit before.
    while 1 < unit {
        end = digit(text, end, n, unit);
        unit /= 10;
    }
    put(text, end, b'0' + (n % 10) as u8)
}

fn hex_digit(text: &mut [u8], at: usize, d: u64) -> usize
    requires { d < 16 }
{
    if d < 10 {
        return put(text, at, b'0' + d as u8);
    }
    put(text, at, b'a' - 10 + d as u8)
}

// A byte as two digits, or as it is.
fn byte(text: &mut [u8], at: usize, b: u8, in_hex: bool) -> usize {
    if in_hex {
        let x = record_bytes::wide(b);
        let next = hex_digit(text, at, x / 16);
        return hex_digit(text, next, x % 16);
    }
    put(text, at, b)
}

fn bytes(text: &mut [u8], at: usize, s: &[u8], in_hex: bool) -> usize {
    let mut end = at;
    for b in s {
        end = byte(text, end, *b, in_hex);
    }
    end
}

// Numbers in decimal, a space after each.
fn fields(text: &mut [u8], values: &[u64]) -> usize {
    let mut end = 0;
    for n in values {
        end = decimal(text, end, *n);
        end = put(text, end, b' ');
    }
    end
}

// The fields as a line.
pub fn plain(text: &mut [u8], values: &[u64]) -> usize {
    let at = fields(text, values);
    if at == 0 {
        return 0;
    }
    put(text, at - 1, b'\n')
}

// The fields and the whole output as it returned, as a line.
pub fn with_output(text: &mut [u8], values: &[u64], out: &[u8]) -> usize {
    let at = fields(text, values);
    if out.is_empty() {
        let last = put(text, at, b'-');
        return put(text, last, b'\n');
    }
    let last = bytes(text, at, out, true);
    put(text, last, b'\n')
}

// A label and one space.
pub fn label(text: &mut [u8], s: &[u8]) -> usize {
    let at = bytes(text, 0, s, false);
    put(text, at, b' ')
}
