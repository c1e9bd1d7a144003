// A frame examined: its size, its marker, and then its header, derandomised.
//
// Promises: any octets of any number are examined, and the answer is the lowest of refusals 3 to 9 that applies, or where to go on reading
// (frame specs/Refusals.antt).
#![tactic(auto)]

ghost use Rattle.std.specs.Prelude.{◌≡◌, ◌≤◌, length, take};
ghost use Rattle.frame.specs.Header.{marker, starts_with};
ghost use Rattle.frame.specs.Refusals.{examined_header, examined, plain_after};

use frame::{Accepted, Channel, Frame, Pointer};
use refusals::Refusal;

// Refusals 5 to 9, from the header.
fn examine_header(
    h: Frame,
    spacecraft: u8,
    watched: [Channel; Channel::MOST],
    n: u8,
) -> Result<Accepted, Refusal>
    requires { n ≤ 8 }
    ensures { result ≡ examined_header spacecraft (take n watched) h }
{
    if h.version != Frame::VERSION {
        return Err(Refusal::VERSION);
    }
    if h.spacecraft != spacecraft {
        return Err(Refusal::SPACECRAFT);
    }
    if h.channel.0 == Channel::FILL {
        return Err(Refusal::FILL);
    }
    let desk = frame::desk_of(watched, n, h.channel).ok_or(Refusal::NOT_WATCHED)?;
    let pointer = frame::meaning(h.pointer);
    if let Pointer::Refused = pointer {
        return Err(Refusal::POINTER);
    }
    Ok(Accepted {
        desk,
        counter: h.counter,
        pointer,
    })
}

// Whether a frame begins with the marker, by one comparison of its octets as a number.
fn marked(frame: &[u8]) -> bool
    requires { 4 ≤ length frame.now }
    ensures { result ≡ starts_with marker frame.now }
{
    octets::u32_at(frame, 0) == octets::u32_at(&Frame::MARKER, 0)
}

// Refusals 3 to 9. The scratch octets hold the derandomised frame afterwards, if it has its size and its marker.
pub fn examine(
    frame: &[u8],
    plain: &mut [u8],
    spacecraft: u8,
    watched: [Channel; Channel::MOST],
    n: u8,
) -> Result<Accepted, Refusal>
    requires { (length plain.old ≡ 1020) × (n ≤ 8) }
    ensures value { result ≡ examined spacecraft (take n watched) frame.now }
    ensures plain_after { plain.new ≡ plain_after frame.now plain.old }
{
    if frame.len() != Frame::SIZE {
        return Err(Refusal::SIZE);
    }
    if !marked(frame) {
        return Err(Refusal::MARKER);
    }
    noise::mix(&frame[Frame::CODED_AT..Frame::SIZE], plain);
    let h = Frame::read(plain);
    examine_header(h, spacecraft, watched, n)
}
