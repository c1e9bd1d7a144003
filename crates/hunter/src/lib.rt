// The call that hunts: a portion of a raw stream through a hunter, up to the end of one frame.
//
// Promises: everything that comes out is what the stream's definition says of everything that came in (stream specs/Hunter.antt); any hunter, any
// portion and any buffer are answered. Nothing is shifted along a buffer: octets go from the portion straight to where they wait or to the frame.
#![tactic(auto)]

ghost use Rattle.std.specs.Prelude.{◌≡◌};
ghost use Rattle.stream.specs.Hunter.{is_sound, gave_hunt, hunt_of, hunted};
ghost use Rattle.hunter.specs.Contract.{spread_of, none_found, filled, Settled, Sliding, Ready};

use frame::Frame;
use refusals::Refusal;
use stream::{Hunted, Hunter, Sought};

// Whether a hunter can have come from begin and hunt.
fn is_sound(h: Hunter) -> bool
    ensures { result ≡ is_sound h }
{
    let n = h.waiting as usize;
    h.begun
        && h.k <= Hunter::MOST
        && n < Frame::SIZE
        && (n < 4 || stream::is_near(octets::u32_at(&h.octets, 0), h.k))
        && zeros::all_zero(&h.octets, n, Frame::SIZE)
}

// The four octets of a number, zeros after them.
fn spread(v: u32) -> [u8; 1024]
    ensures { result ≡ spread_of v }
{
    let mut out = [0u8; 1024];
    out[..4].copy_from_slice(&v.to_be_bytes());
    out
}

// No frame was found: all of the portion is taken, and these octets wait.
fn none_found(k: u8, waiting: u16, octets: [u8; 1024], taken: usize) -> Hunted
    ensures { result ≡ none_found k waiting octets taken }
{
    Hunted {
        answer: 0,
        taken,
        found: false,
        hunter: Hunter {
            begun: true,
            k,
            waiting,
            octets,
        },
    }
}

// From a marker that waits: the frame if the portion, from place at on, has the rest of it; else all of the portion waits too.
fn fill(h: Hunter, portion: &[u8], at: usize, buffer: &mut [u8]) -> Hunted
    requires { Settled h portion.now at buffer.old }
    ensures { gave_hunt result buffer.new ≡ filled h at portion.now buffer.old }
{
    let n = h.waiting as usize;
    let left = portion.len() - at;
    let need = Frame::SIZE - n;
    if left < need {
        let mut held = h.octets;
        octets::copy(&portion[at..], &mut held, n);
        return none_found(h.k, (n + left) as u16, held, portion.len());
    }
    let end = at + need;
    octets::copy(&h.octets[..n], buffer, 0);
    octets::copy(&portion[at..end], buffer, n);
    octets::copy(&Frame::MARKER, buffer, 0);
    Hunted {
        answer: 0,
        taken: end,
        found: true,
        hunter: Hunter {
            begun: true,
            k: h.k,
            waiting: 0,
            octets: [0; 1024],
        },
    }
}

// From under four octets that wait, with four in all: the window slides over the portion up to a marker, or to its end.
fn slide(h: Hunter, portion: &[u8], buffer: &mut [u8]) -> Hunted
    requires { Sliding h portion.now buffer.old }
    ensures { gave_hunt result buffer.new ≡ hunt_of h portion.now buffer.old }
{
    let n = h.waiting as usize;
    let mut held = h.octets;
    let at = 3 - n;
    octets::copy(&portion[..at], &mut held, n);
    let three = octets::u24_at(&held, 0);
    match stream::seek(portion, at, three, h.k) {
        Sought::At(next, four) => {
            let begun = Hunter {
                begun: true,
                k: h.k,
                waiting: 4,
                octets: spread(four),
            };
            fill(begun, portion, next, buffer)
        }
        Sought::Nowhere(last) => none_found(h.k, 3, spread(last << 8), portion.len()),
    }
}

// The hunt of a sound hunter: behind a marker that waits, with too few octets for a window, or with a window.
fn search(h: Hunter, portion: &[u8], buffer: &mut [u8]) -> Hunted
    requires { Ready h buffer.old }
    ensures { gave_hunt result buffer.new ≡ hunt_of h portion.now buffer.old }
{
    let n = h.waiting as usize;
    if 4 <= n {
        return fill(h, portion, 0, buffer);
    }
    let len = portion.len();
    if 4 - n <= len {
        return slide(h, portion, buffer);
    }
    let mut held = h.octets;
    octets::copy(portion, &mut held, n);
    none_found(h.k, (n + len) as u16, held, len)
}

// One call: octets of the portion up to the end of one frame, or all of them.
pub fn hunt(h: Hunter, portion: &[u8], buffer: &mut [u8]) -> Hunted
    ensures { gave_hunt result buffer.new ≡ hunted h portion.now buffer.old }
{
    if buffer.len() != Frame::SIZE {
        return Hunted {
            answer: Refusal::LENT.0,
            taken: 0,
            found: false,
            hunter: h,
        };
    }
    if !is_sound(h) {
        return Hunted {
            answer: Refusal::UNSOUND.0,
            taken: 0,
            found: false,
            hunter: h,
        };
    }
    search(h, portion, buffer)
}
