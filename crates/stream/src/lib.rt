// Frames out of a raw octet stream: what a stream is cut into, the hunter that it is fed to, and the search for the marker.
//
// Owns the hunter, refusal 15, the definitions of the stream (specs/) and the laws of them: however a stream is divided, the frames and the octets left
// waiting are the same (specs/Promises.antt). The call that hunts is `hunt` of the crate `hunter`.
#![tactic(auto)]

ghost use Rattle.std.specs.Prelude.{◌≡◌, ◌+◌, ◌-◌, ◌≤◌, length, drop};
ghost use Rattle.octets.specs.Number.{part};
ghost use Rattle.stream.specs.Hunter.{begun_by};
ghost use Rattle.stream.specs.Seek.{near, sought_in, quiet};

use refusals::Refusal;

// The hunter: whether it was begun, how many wrong bits a marker may have, how many octets wait, and the octets themselves, zeros after them.
#[derive(Clone, Copy)]
pub struct Hunter {
    pub begun: bool,
    pub k: u8,
    pub waiting: u16,
    pub octets: [u8; 1024],
}

// What comes of a beginning: a number, and the hunter.
#[derive(Clone, Copy)]
pub struct Begun {
    pub answer: u8,
    pub hunter: Hunter,
}

// What comes of a hunt: a number, how many octets of the portion were taken, whether a frame was found, and the hunter.
#[derive(Clone, Copy)]
pub struct Hunted {
    pub answer: u8,
    pub taken: usize,
    pub found: bool,
    pub hunter: Hunter,
}

impl Hunter {
    // So many wrong bits at most can be chosen.
    pub const MOST: u8 = 3;
}

// The marker as one number of 32 bits.
const MARKER: u32 = 0x1ACFFC1D;

// A hunter that waits for its first octet.
pub fn begin(k: u8) -> Begun
    ensures { result ≡ begun_by k }
{
    if k <= Hunter::MOST {
        return Begun {
            answer: 0,
            hunter: Hunter {
                begun: true,
                k,
                waiting: 0,
                octets: [0; 1024],
            },
        };
    }
    Begun {
        answer: Refusal::WRONG_BITS.0,
        hunter: Hunter {
            begun: false,
            k: 0,
            waiting: 0,
            octets: [0; 1024],
        },
    }
}

// Whether four octets, as one number, are a marker with at most k wrong bits.
pub fn is_near(v: u32, k: u8) -> bool
    ensures { result ≡ near k v }
{
    (v ^ MARKER).count_ones() <= k as u32
}

// Where the first marker ends, with its four octets; or the last octets seen.
#[derive(Clone, Copy)]
pub enum Sought {
    At(usize, u32),
    Nowhere(u32),
}

// The first marker by the rule that ends in a stretch of the portion, window by window; v has the three octets before.
fn scan(portion: &[u8], from: usize, to: usize, v: u32, k: u8) -> Sought
    requires { (from ≤ to) × (to ≤ length portion.now) }
    ensures { result ≡ sought_in k from v (part from (to - from) portion.now) }
{
    let mut four = v;
    for i in from..to {
        four = (four << 8) + portion[i] as u32;
        if is_near(four, k) {
            return Sought::At(i + 1, four);
        }
    }
    Sought::Nowhere(four)
}

// Whether none of some octets stands in the marker. The answer is gathered over them all, with no way out at the first that does: such a loop becomes
// vector code.
fn is_quiet(s: &[u8]) -> bool
    ensures { result ≡ quiet s.now }
{
    let mut any = false;
    for &x in s {
        any |= (x == 0x1A) | (x == 0xCF) | (x == 0xFC) | (x == 0x1D);
    }
    !any
}

// So many octets are asked at once whether they are quiet.
const STRETCH: usize = 16;

// The same of a whole stretch. In a quiet one no marker lies, since one of its octets at least would be right: only the first three windows, which begin
// before it, are looked at.
fn leap(portion: &[u8], from: usize, v: u32, k: u8) -> Sought
    requires { (from + 16 ≤ length portion.now) × (k ≤ 3) }
    ensures { result ≡ sought_in k from v (part from 16 portion.now) }
{
    let to = from + STRETCH;
    if !is_quiet(&portion[from..to]) {
        return scan(portion, from, to, v, k);
    }
    match scan(portion, from, from + 3, v, k) {
        Sought::At(next, four) => Sought::At(next, four),
        Sought::Nowhere(_) => Sought::Nowhere(octets::u32_at(portion, to - 4)),
    }
}

// The first marker by the rule, from place from of the portion on; v has the three octets before.
pub fn seek(portion: &[u8], from: usize, v: u32, k: u8) -> Sought
    requires { (from ≤ length portion.now) × (k ≤ 3) }
    ensures { result ≡ sought_in k from v (drop from portion.now) }
{
    let mut i = from;
    let mut four = v;
    while STRETCH <= portion.len() - i {
        match leap(portion, i, four, k) {
            Sought::At(next, found) => return Sought::At(next, found),
            Sought::Nowhere(last) => four = last,
        }
        i += STRETCH;
    }
    scan(portion, i, portion.len(), four, k)
}
