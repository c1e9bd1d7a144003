// Pieces of text in a lent buffer. Each function puts a piece in the buffer from a place on and answers where the piece ends, so that the
// next one can follow there.
//
// Promises: the buffer after a call is an equation on the whole buffer, and so is the end (specs/Pieces.antt); what follows one another is
// one piece (proofs/Following.antt). The callers of this crate show that there is room.
#![tactic(auto)]

ghost use Rattle.std.specs.Prelude.{◌+◌, ◌*◌, ◌^◌, ◌≤◌, ◌<◌, ◌≡◌, ◌++◌, length};
ghost use Rattle.io.specs.Digits.{last_digits as digits_of, hex_digit_ascii};
ghost use Rattle.text.specs.Pieces.{decimal as decimal_of, spaced, spaced_signed, in_hex, Written};
ghost use Rattle.text.specs.Lines.{spaced_three, newline};

pub fn word(w: &[u8], out: &mut [u8], at: usize) -> usize
    requires { at + length w.now ≤ length out.old }
    ensures { Written out.old at w.now out.new result }
{
    octets::copy(w, out, at);
    at + w.len()
}

pub fn decimal(v: u64, out: &mut [u8], at: usize) -> usize
    requires { at + 20 ≤ length out.old }
    ensures { (result ≤ at + 20) × Written out.old at (decimal_of v) out.new result }
{
    let mut digits = [0u8; 20];
    let k = io::decimal(v, &mut digits);
    word(&digits[..k], out, at)
}

// A space, and a number in decimal.
pub fn number(v: u64, out: &mut [u8], at: usize) -> usize
    requires { at + 21 ≤ length out.old }
    ensures { (result ≤ at + 21) × Written out.old at (spaced v) out.new result }
{
    let begun = word(b" ", out, at);
    decimal(v, out, begun)
}

// The same of a number that may be negative: its sign and its magnitude.
pub fn signed(negative: bool, magnitude: u64, out: &mut [u8], at: usize) -> usize
    requires { at + 22 ≤ length out.old }
    ensures { (result ≤ at + 22) × Written out.old at (spaced_signed negative magnitude) out.new result }
{
    if negative {
        let sign = word(b" -", out, at);
        return decimal(magnitude, out, sign);
    }
    number(magnitude, out, at)
}

// Three numbers.
pub fn numbers(a: u64, b: u64, c: u64, out: &mut [u8], at: usize) -> usize
    requires { at + 63 ≤ length out.old }
    ensures { (result ≤ at + 63) × Written out.old at (spaced_three a b c) out.new result }
{
    let second = number(a, out, at);
    let third = number(b, out, second);
    number(c, out, third)
}

// A word and a number.
pub fn with_number(w: &[u8], n: u64, out: &mut [u8], at: usize) -> usize
    requires { at + length w.now + 21 ≤ length out.old }
    ensures { (result ≤ at + length w.now + 21) × Written out.old at (w.now ++ spaced n) out.new result }
{
    let end = word(w, out, at);
    number(n, out, end)
}

// A word and three numbers.
pub fn with_three(w: &[u8], a: u64, b: u64, c: u64, out: &mut [u8], at: usize) -> usize
    requires { at + length w.now + 63 ≤ length out.old }
    ensures { (result ≤ at + length w.now + 63) × Written out.old at (w.now ++ spaced_three a b c) out.new result }
{
    let end = word(w, out, at);
    numbers(a, b, c, out, end)
}

// A number in hexadecimal, lower case, with so many digits.
pub fn hex(v: u64, width: usize, out: &mut [u8], at: usize) -> usize
    requires { (1 ≤ width) × (width ≤ 16) × (v < 16 ^ width) × (at + width ≤ length out.old) }
    ensures { (result ≡ at + width) × Written out.old at (digits_of 16 width v) out.new result }
{
    let mut digits = [0u8; 16];
    let k = io::hex(v, width, &mut digits);
    word(&digits[..k], out, at)
}

fn digit(d: u8) -> u8
    requires { d < 16 }
    ensures { result ≡ hex_digit_ascii d }
{
    if d < 10 {
        return b'0' + d;
    }
    b'a' + (d - 10)
}

// Octets in hexadecimal, two digits each.
pub fn hex_octets(s: &[u8], out: &mut [u8], at: usize) -> usize
    requires { at + 2 * length s.now ≤ length out.old }
    ensures { (result ≡ at + 2 * length s.now) × Written out.old at (in_hex s.now) out.new result }
{
    let mut end = at;
    for x in s {
        out[end] = digit(*x / 16);
        out[end + 1] = digit(*x % 16);
        end += 2;
    }
    end
}

pub fn line_end(out: &mut [u8], at: usize) -> usize
    requires { at + 1 ≤ length out.old }
    ensures { (result ≡ at + 1) × Written out.old at newline out.new result }
{
    out[at] = b'\n';
    at + 1
}
