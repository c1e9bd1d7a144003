// A frame that is not refused: the packet that was held is carried on from its desk, then the zone is walked.
//
// Promises: all that comes of it is one definition, walked (zone specs/Walk.antt). The held octets and the zone are one stretch of octets there;
// here the carried packet is put together on its desk and the zone is read where it lies.
#![tactic(auto)]

ghost use Rattle.std.specs.Prelude.{◌≡◌};
ghost use Rattle.state.specs.Slots.{station_of};
ghost use Rattle.state.specs.Sound.{DesksSound};
ghost use Rattle.zone.specs.Walk.{with_desk, walked};
ghost use Rattle.zone.specs.Contract.{Lent, TellsWalked};
ghost use Rattle.carry.specs.Contract.{joined_on, sequel_on, Joining, Beginning, Begins};

use frame::{Accepted, Channel, Frame};
use state::{Desk, Head, Slot, Station};
use zone::{Done, Sequel};

// Octets are held: as many of the zone's as fit are put behind them, and say what becomes of the packet.
fn join(a: Accepted, held: usize, zone: &[u8], desks: &mut [u8]) -> Sequel
    requires { Joining a held zone.now desks.old }
    ensures value { result ≡ sequel_on a held desks.new }
    ensures desks_after { desks.new ≡ joined_on a held zone.now desks.old }
{
    let base = Desk::SIZE * a.desk;
    let behind = base + held;
    let more = octets::least(Frame::ZONE, Desk::SIZE - held);
    octets::copy(&zone[..more], desks, behind);
    let end = behind + more;
    zone::sequel_of(&desks[base..end], held, a.pointer)
}

// Where a frame is read first: at a place of its zone, with so many events told, or at the packet on its desk, which has this size.
#[derive(Clone, Copy)]
enum Opening {
    Reads(usize, usize),
    Carries(usize),
}

// How a frame begins, by its counter and by what its desk holds.
fn begin(d: Desk, a: Accepted, zone: &[u8], desks: &mut [u8], list: &mut [u16]) -> Opening
    requires { Beginning d a zone.now desks.old list.old }
    ensures { Begins d a zone.now desks.old list.old result desks.new list.new }
{
    let from = zone::start_at(a.pointer);
    if zone::is_gap(d, a.counter) {
        let n = events::emit(list, 0, 1, 0, 0);
        return Opening::Reads(from, n);
    }
    if d.held == 0 {
        return Opening::Reads(from, 0);
    }
    match join(a, d.held as usize, zone, desks) {
        Sequel::Dropped(kind) => {
            let n = events::emit(list, 0, kind, 0, 0);
            Opening::Reads(from, n)
        }
        Sequel::CarriedOn(size) => Opening::Carries(size),
    }
}

// A frame that is not refused: rules 4 to 6 of the paper.
pub fn walk_frame(
    channel: Channel,
    head: Head,
    owner: &mut [u8; Station::MOST_BLOCKS as usize],
    slots: [Slot; Station::SLOTS],
    a: Accepted,
    zone: &[u8],
    desks: &mut [u8],
    store: &mut [u8],
    list: &mut [u16],
) -> Done
    requires lent { Lent channel (station_of head owner.old slots) a zone.now desks.old store.old list.old }
    requires desks_sound { DesksSound (station_of head owner.old slots) desks.old }
    ensures { TellsWalked (walked channel (station_of head owner.old slots) desks.old store.old zone.now a) 0 list.old (with_desk (station_of head owner.new result.slots) a.desk result.desk) result.events desks.new store.new list.new }
{
    let d = head.desks[a.desk];
    match begin(d, a, zone, desks, list) {
        Opening::Reads(from, n) => walk::walk_rest(
            channel, head, owner, slots, a, zone, from, desks, store, list, n,
        ),
        Opening::Carries(size) => {
            let held = d.held as usize;
            let lacked = size - held;
            if lacked > Frame::ZONE {
                let all = held + Frame::ZONE;
                return zone::leave(slots, a, all as u16, 0);
            }
            let base = Desk::SIZE * a.desk;
            let last = base + size;
            let w = walk::walk(
                channel,
                head,
                owner,
                slots,
                &desks[base..last],
                0,
                store,
                list,
                0,
            );
            walk::walk_rest(
                channel, head, owner, w.slots, a, zone, lacked, desks, store, list, w.events,
            )
        }
    }
}
