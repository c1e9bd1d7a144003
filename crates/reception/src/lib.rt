// The frame call: a frame refused, or its zone walked under its channel and desk.
//
// Promises: everything that comes out is what the station's definition says of everything that came in (station specs/Frame.antt).
#![tactic(auto)]

ghost use Rattle.std.specs.Prelude.{◌≡◌, ◌&&◌, ◌<◌, leb, length, Ok};
ghost use Rattle.frame.specs.Header.{derandomised};
ghost use Rattle.state.specs.Slots.{station_of};
ghost use Rattle.state.specs.Sound.{DesksSound};
ghost use Rattle.zone.specs.Walk.{walked};
ghost use Rattle.zone.specs.Contract.{Lent};
ghost use Rattle.station.specs.SetUp.{desks_fit};
ghost use Rattle.station.specs.Files.{store_fits};
ghost use Rattle.station.specs.Frame.{frame_gives, channel_at, admitted, taken, framed};
ghost use Rattle.reception.specs.Parts.{outcome_of};

use events::Event;
use frame::{Accepted, Frame};
use refusals::Refusal;
use state::{Desk, Head, Slot, Station};

// The least numbers of an event list.
const LEAST_LIST: usize = Event::NUMBERS * Event::MOST;

// What comes of a frame: a number of the paper, the events, and the state.
#[derive(Clone, Copy)]
pub struct Framed {
    pub answer: u8,
    pub events: usize,
    pub station: Station,
}

// Whether desks, store and event list are lent as a state of so many channels and blocks asks.
fn lent_right(channels: u8, blocks: u16, desks: &[u8], store: &[u8], list: &[u16]) -> bool
    ensures { result ≡ (desks_fit channels desks.now && store_fits blocks store.now && leb 900 (length list.now)) }
{
    desks.len() == Desk::SIZE * (channels as usize)
        && station::store_fits(blocks, store)
        && LEAST_LIST <= list.len()
}

// Refusals 1 to 9. The scratch octets hold the derandomised frame afterwards, if it is not refused.
fn admit(
    head: Head,
    owner: &[u8],
    slots: [Slot; Station::SLOTS],
    desks: &[u8],
    store: &[u8],
    list: &[u16],
    octets: &[u8],
    plain: &mut [u8],
) -> Result<Accepted, Refusal>
    requires { (length owner.now ≡ 4096) × (length plain.old ≡ 1020) }
    ensures value { result ≡ admitted (station_of head owner.now slots) desks.now store.now list.now octets.now }
    ensures plain_after { (a : Accepted) → result ≡ Ok a → plain.new ≡ derandomised octets.now }
{
    if !lent_right(head.channels, head.blocks, desks, store, list) {
        return Err(Refusal::LENT);
    }
    if !sound::are_parts_sound(head, owner, slots) {
        return Err(Refusal::UNSOUND);
    }
    if !desks::are_desks_sound(head.desks, head.channels, desks) {
        return Err(Refusal::UNSOUND);
    }
    examine::examine(octets, plain, head.spacecraft, head.watched, head.channels)
}

// What comes of a frame: its answer and events, its desk with what that keeps now, and the slots.
#[derive(Clone, Copy)]
struct Outcome {
    answer: u8,
    events: usize,
    desk: usize,
    position: Desk,
    slots: [Slot; Station::SLOTS],
}

// A frame that is not refused.
fn take_accepted(
    a: Accepted,
    head: Head,
    owner: &mut [u8; Station::MOST_BLOCKS as usize],
    slots: [Slot; Station::SLOTS],
    zone: &[u8],
    desks: &mut [u8],
    store: &mut [u8],
    list: &mut [u16],
) -> Outcome
    requires lent { Lent (channel_at (station_of head owner.old slots) a.desk) (station_of head owner.old slots) a zone.now desks.old store.old list.old }
    requires desks_sound { DesksSound (station_of head owner.old slots) desks.old }
    ensures desk_bound { result.desk < 8 }
    ensures outcome { outcome_of head owner.new result desks.new store.new list.new ≡ taken (station_of head owner.old slots) list.old (walked (channel_at (station_of head owner.old slots) a.desk) (station_of head owner.old slots) desks.old store.old zone.now a) }
{
    let channel = head.watched[a.desk];
    let done = carry::walk_frame(channel, head, owner, slots, a, zone, desks, store, list);
    let slots = done.slots;
    Outcome {
        answer: 0,
        events: done.events,
        desk: a.desk,
        position: done.desk,
        slots,
    }
}

// The frame call on the parts of a state. Where nothing changes, the first desk gets what it has.
fn take_parts(
    head: Head,
    owner: &mut [u8; Station::MOST_BLOCKS as usize],
    slots: [Slot; Station::SLOTS],
    octets: &[u8],
    desks: &mut [u8],
    store: &mut [u8],
    list: &mut [u16],
) -> Outcome
    requires { length owner.old ≡ 4096 }
    ensures desk_bound { result.desk < 8 }
    ensures outcome { outcome_of head owner.new result desks.new store.new list.new ≡ framed (station_of head owner.old slots) desks.old store.old list.old octets.now }
{
    let mut plain = [0u8; Frame::CODED];
    // A refusal goes back from here: one value for both answers would have the slots copied once more with every frame.
    let a = match admit(head, owner, slots, desks, store, list, octets, &mut plain) {
        Ok(a) => a,
        Err(r) => {
            return Outcome {
                answer: r.0,
                events: 0,
                desk: 0,
                position: head.desks[0],
                slots,
            };
        }
    };
    let zone = &plain[Frame::ZONE_AT..Frame::UNIT];
    take_accepted(a, head, owner, slots, zone, desks, store, list)
}

// One frame. Answers 0 to 9; after 0 the events fill the list from its start.
pub fn take_frame(
    s: Station,
    desks: &mut [u8],
    store: &mut [u8],
    list: &mut [u16],
    octets: &[u8],
) -> Framed
    ensures { frame_gives result.answer result.events result.station desks.new store.new list.new ≡ framed s desks.old store.old list.old octets.now }
{
    // The head is taken field by field: a call for it would copy the whole state.
    let mut t = s;
    let watched = t.watched;
    let positions = t.desks;
    let head = Head {
        spacecraft: t.spacecraft,
        channels: t.channels,
        watched,
        desks: positions,
        blocks: t.blocks,
    };
    let o = take_parts(head, &mut t.owner, t.slots, octets, desks, store, list);
    let slots = o.slots;
    t.slots = slots;
    t.desks[o.desk] = o.position;
    Framed {
        answer: o.answer,
        events: o.events,
        station: t,
    }
}
