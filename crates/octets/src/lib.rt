// Octets in lent buffers: the numbers in them, most significant octet first, and the moves that every layer above is made of.
//
// Promises: a number read is the number that the octets stand for, at every width by one law; a number stored, a copy and a blank are an
// equation on the whole buffer, so that nothing outside the stretch named is touched. The callers of this crate show that the stretch is there.
#![tactic(auto)]

ghost use Rattle.std.specs.Prelude.{◌≡◌, min, ◌+◌, ◌*◌, ◌^◌, ◌≤◌, ◌<◌, length, replicate};
ghost use Rattle.octets.specs.Number.{number_at, in_octets, signed, rounded_up};
ghost use Rattle.octets.specs.Buffer.{put};

// The number in the w octets from place at on.
pub fn number(s: &[u8], at: usize, w: usize) -> u64
    requires { (w ≤ 8) × (at + w ≤ length s.now) }
    ensures { (result ≡ number_at s.now at w) × (result < 2 ^ (8 * w)) }
{
    let mut v: u64 = 0;
    for x in &s[at..at + w] {
        v = v * 256 + *x as u64;
    }
    v
}

pub fn u16_at(s: &[u8], at: usize) -> u16
    requires { at + 2 ≤ length s.now }
    ensures { result ≡ number_at s.now at 2 }
{
    number(s, at, 2) as u16
}

pub fn u24_at(s: &[u8], at: usize) -> u32
    requires { at + 3 ≤ length s.now }
    ensures { (result ≡ number_at s.now at 3) × (result < 2 ^ 24) }
{
    number(s, at, 3) as u32
}

pub fn u32_at(s: &[u8], at: usize) -> u32
    requires { at + 4 ≤ length s.now }
    ensures { result ≡ number_at s.now at 4 }
{
    number(s, at, 4) as u32
}

pub fn u64_at(s: &[u8], at: usize) -> u64
    requires { at + 8 ≤ length s.now }
    ensures { result ≡ number_at s.now at 8 }
{
    number(s, at, 8)
}

pub fn i32_at(s: &[u8], at: usize) -> i32
    requires { at + 4 ≤ length s.now }
    ensures { result ≡ signed (number_at s.now at 4) }
{
    u32_at(s, at).cast_signed()
}

pub fn least(a: usize, b: usize) -> usize
    ensures { result ≡ min a b }
{
    a.min(b)
}

// The octets that so many bits fill, rounded up.
pub fn rounded_up(bits: u64) -> u64
    ensures { (result ≡ rounded_up bits) × (result ≤ 2 ^ 61) }
{
    bits.div_ceil(8)
}

// All of src, stored in dst from place at on.
pub fn copy(src: &[u8], dst: &mut [u8], at: usize)
    requires { at + length src.now ≤ length dst.old }
    ensures { dst.new ≡ put dst.old at src.now }
{
    dst[at..at + src.len()].copy_from_slice(src);
}

// n zeros from place at on.
pub fn blank(dst: &mut [u8], at: usize, n: usize)
    requires { at + n ≤ length dst.old }
    ensures { dst.new ≡ put dst.old at (replicate n 0) }
{
    dst[at..at + n].fill(0);
}

// The number v, in the w octets from place at on.
pub fn store(dst: &mut [u8], at: usize, w: usize, v: u64)
    requires { at + w ≤ length dst.old }
    ensures { dst.new ≡ put dst.old at (in_octets w v) }
{
    let mut left = v;
    for i in (0..w).rev() {
        dst[at + i] = (left % 256) as u8;
        left = left / 256;
    }
}
