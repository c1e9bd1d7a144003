// The zone of a frame: where reading begins in it, what comes next there, and what becomes of a packet that was held.
//
// Owns the definition of all that comes of a frame that is not refused, walked (specs/Walk.antt), and its laws: the held octets and the zone are
// one stretch of octets there. Promises: each question about one place of the zone is answered as that definition has it; `walk` and `carry` act
// on the answers.
#![tactic(auto)]

ghost use Rattle.std.specs.Prelude.{◌≡◌, ◌≤◌, length, drop};
ghost use Rattle.packet.specs.Header.{size_of, look_of};
ghost use Rattle.zone.specs.Zone.{agrees as agrees_of};
ghost use Rattle.zone.specs.Walk.{gap as gap_of};
ghost use Rattle.zone.specs.Contract.{start_at, next_of, leaves, sequel_of};

use frame::{Accepted, Counter, Frame, Pointer};
use packet::{Look, Packet};
use state::{Desk, Slot, Station};

// The slots afterwards, how many events the list has, and what the frame's desk keeps.
#[derive(Clone, Copy)]
pub struct Done {
    pub slots: [Slot; Station::SLOTS],
    pub events: usize,
    pub desk: Desk,
}

// The place at which reading begins, by the pointer.
pub fn start_at(pointer: Pointer) -> usize
    ensures { result ≡ start_at pointer }
{
    let Pointer::Offset(at) = pointer else {
        return Frame::ZONE;
    };
    at as usize
}

// The pointer must be what the packet lacked, or 2047 where that is not within the zone.
fn agrees(lacked: usize, pointer: Pointer) -> bool
    ensures { result ≡ agrees_of lacked pointer }
{
    match pointer {
        Pointer::Offset(at) => at as usize == lacked,
        Pointer::NoStart => Frame::ZONE <= lacked,
        Pointer::Refused => false,
    }
}

// Whether a frame was lost before this one.
pub fn is_gap(d: Desk, counter: Counter) -> bool
    ensures { result ≡ gap_of d counter }
{
    d.seen && !counter.follows(d.counter)
}

// What comes next in the zone: a whole packet with this header, or the end of what can be judged, at a bad header or not.
#[derive(Clone, Copy)]
pub enum Next {
    Take(Packet),
    End(bool),
}

// What comes next at a place of the zone.
pub fn next_at(zone: &[u8], at: usize) -> Next
    requires { at ≤ length zone.now }
    ensures { result ≡ next_of (drop at zone.now) }
{
    match packet::look_at(&zone[at..]) {
        Look::Short => Next::End(false),
        Look::Bad => Next::End(true),
        Look::Good(h) => {
            if zone.len() - at < h.size() {
                Next::End(false)
            } else {
                Next::Take(h)
            }
        }
    }
}

// How the frame leaves the station: its desk holds so many octets, and "this counter is now the last".
pub fn leave(slots: [Slot; Station::SLOTS], a: Accepted, held: u16, told: usize) -> Done
    ensures { result ≡ leaves slots a held told }
{
    Done {
        slots,
        events: told,
        desk: Desk {
            held,
            seen: true,
            counter: a.counter,
        },
    }
}

// What becomes of a held packet: it is dropped, with an event of this kind, or carried on, and has this size.
#[derive(Clone, Copy)]
pub enum Sequel {
    Dropped(u16),
    CarriedOn(usize),
}

// The sequel of a packet of which some octets were held, by its octets and the pointer.
pub fn sequel_of(packet: &[u8], held: usize, pointer: Pointer) -> Sequel
    requires { (h : Packet) → look_of packet.now ≡ Look.Good h → held ≤ size_of h }
    ensures { result ≡ sequel_of (look_of packet.now) held pointer }
{
    let Look::Good(h) = packet::look_at(packet) else {
        return Sequel::Dropped(3);
    };
    let size = h.size();
    if agrees(size - held, pointer) {
        return Sequel::CarriedOn(size);
    }
    Sequel::Dropped(2)
}
