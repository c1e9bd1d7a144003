// The walk over a zone: the packets in it, one after the other, and the desk put in order behind them.
//
// Promises: what comes of octets that are read from a place of the zone on is walked_from (zone specs/Walk.antt), and the zone is read where it
// lies.
#![tactic(auto)]

ghost use Rattle.std.specs.Prelude.{[], ◌+◌, ◌*◌, ◌≤◌, drop};
ghost use Rattle.state.specs.Slots.{station_of};
ghost use Rattle.zone.specs.Walk.{with_desk, walked_from};
ghost use Rattle.zone.specs.Contract.{Lent, Going, TellsWalked, Stops};
ghost use Rattle.walk.specs.Contract.{Settling, Settles};

use frame::{Accepted, Channel};
use judge::Ruling;
use state::{Desk, Head, Slot, Station};
use zone::{Done, Next};

// Where a walk over octets ended: at a place with what is unfinished behind it, or at a bad header.
#[derive(Clone, Copy)]
pub struct Stop {
    pub slots: [Slot; Station::SLOTS],
    pub events: usize,
    pub at: usize,
    pub bad: bool,
}

// The packets from a place of the zone on, each judged, up to what is unfinished or bad. It serves the packet on a desk too: a zone of one packet.
pub fn walk(
    channel: Channel,
    head: Head,
    owner: &mut [u8; Station::MOST_BLOCKS as usize],
    slots: [Slot; Station::SLOTS],
    zone: &[u8],
    from: usize,
    store: &mut [u8],
    list: &mut [u16],
    n: usize,
) -> Stop
    requires { Going channel (station_of head owner.old slots) zone.now from store.old list.old n }
    ensures { Stops channel (station_of head owner.old slots) zone.now from store.old n list.old (station_of head owner.new result.slots) result.events result.at result.bad store.new list.new }
{
    let mut kept = slots;
    let mut events = n;
    let mut at = from;
    loop {
        match zone::next_at(zone, at) {
            Next::End(bad) => {
                return Stop {
                    slots: kept,
                    events,
                    at,
                    bad,
                };
            }
            Next::Take(h) => {
                let end = at + h.size();
                let packet = &zone[at..end];
                match judge::rule(channel, head.blocks, kept, h, packet) {
                    Ruling::Skips => at = end,
                    Ruling::Says(kind) => {
                        events = events::emit(list, events, kind, h.application.0, 0);
                        at = end;
                    }
                    Ruling::Does(act) => {
                        let told = act::carry_out(
                            act, channel, head, owner, kept, h, packet, store, list, events,
                        );
                        kept = told.slots;
                        events = told.events;
                        at = end;
                    }
                }
            }
        }
    }
}

// What the desk keeps, and how many events the list has.
#[derive(Clone, Copy)]
struct Left {
    held: u16,
    events: usize,
}

// The desk put in order behind a walk that ended at a place: it holds what is unfinished, or nothing after a bad header, and zeros behind.
fn settle(
    desk: usize,
    zone: &[u8],
    at: usize,
    bad: bool,
    desks: &mut [u8],
    list: &mut [u16],
    n: usize,
) -> Left
    requires { Settling desk zone.now at desks.old list.old n }
    ensures { Settles desk zone.now at bad desks.old list.old n result.held result.events desks.new list.new }
{
    let base = Desk::SIZE * desk;
    octets::blank(desks, base, Desk::SIZE);
    if bad {
        let m = events::emit(list, n, 3, 0, 0);
        return Left { held: 0, events: m };
    }
    let left = zone.len() - at;
    octets::copy(&zone[at..], desks, base);
    Left {
        held: left as u16,
        events: n,
    }
}

// The zone walked from a place on, and the desk put in order behind it.
pub fn walk_rest(
    channel: Channel,
    head: Head,
    owner: &mut [u8; Station::MOST_BLOCKS as usize],
    slots: [Slot; Station::SLOTS],
    a: Accepted,
    zone: &[u8],
    from: usize,
    desks: &mut [u8],
    store: &mut [u8],
    list: &mut [u16],
    n: usize,
) -> Done
    requires lent { Lent channel (station_of head owner.old slots) a zone.now desks.old store.old list.old }
    requires from_bound { (from ≤ 884) × (3 * n ≤ from + 8) }
    ensures { TellsWalked (walked_from channel (station_of head owner.old slots) desks.old store.old a [] (drop from zone.now)) n list.old (with_desk (station_of head owner.new result.slots) a.desk result.desk) result.events desks.new store.new list.new }
{
    let w = walk(channel, head, owner, slots, zone, from, store, list, n);
    let left = settle(a.desk, zone, w.at, w.bad, desks, list, w.events);
    zone::leave(w.slots, a, left.held, left.events)
}
