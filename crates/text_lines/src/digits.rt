// Numbers and words as text, put into an output of 256 bytes one after the other. Each function answers the place behind what it put.
ghost use Rattle.std.specs.Prelude.{◌≡◌, [], ◌∷◌, ◌<◌};
ghost use Rattle.text_lines.specs.digits.Digits.{digit, decimal, hex};
ghost use Rattle.text_lines.specs.digits.Put.{PutAt, Room};

// The letter of a digit.
fn letter(d: u64) -> u8
    requires { d < 16 }
    ensures { result ≡ digit d }
{
    if d < 10 { 48 + d as u8 } else { 87 + d as u8 }
}

pub fn put_byte(out: &mut [u8; 256], a: usize, b: u8) -> usize
    requires { a < 256 }
    ensures { PutAt out.old a (b ∷ []) out.new result }
{
    out[a] = b;
    a + 1
}

pub fn put_bytes(out: &mut [u8; 256], a: usize, s: &[u8]) -> usize
    requires { Room a s.now }
    ensures { PutAt out.old a s.now out.new result }
{
    let b = a + s.len();
    out[a..b].copy_from_slice(s);
    b
}

pub fn put_decimal(out: &mut [u8; 256], a: usize, n: u64) -> usize
    requires { Room a (decimal n) }
    ensures { PutAt out.old a (decimal n) out.new result }
{
    if n < 10 {
        return put_byte(out, a, letter(n));
    }
    let b = put_decimal(out, a, n / 10);
    put_byte(out, b, letter(n % 10))
}

// The last k digits of x.
pub fn put_hex(out: &mut [u8; 256], a: usize, k: usize, x: u64) -> usize
    requires { Room a (hex k x) }
    ensures { PutAt out.old a (hex k x) out.new result }
{
    if k == 0 {
        return a;
    }
    let b = put_hex(out, a, k - 1, x / 16);
    put_byte(out, b, letter(x % 16))
}
