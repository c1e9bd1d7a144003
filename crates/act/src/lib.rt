// What was decided of a packet, done: slots, blocks and store changed, and the events told.
//
// Promises: what is done by the decision (`judge`, specs/Ruling.antt) is what the paper says of the packet, judged (judge, specs/Judge.antt), on
// the state, the store, and the event list behind the events already there.
#![tactic(auto)]

ghost use Rattle.std.specs.Prelude.{◌≡◌, false, [], ◌∷◌, suc, ◌+◌, ◌*◌, ◌≤◌, ◌<◌, eqb, length, get_or, set, take, if◌then◌else◌};
ghost use Rattle.octets.specs.Buffer.{put};
ghost use Rattle.packet.specs.Header.{packet_of};
ghost use Rattle.transport.specs.Length.{need};
ghost use Rattle.transport.specs.Shape.{begun_of};
ghost use Rattle.state.specs.Slots.{no_file, held, station_of};
ghost use Rattle.state.specs.Blocks.{numbers_of, room as room_of};
ghost use Rattle.room.specs.Move.{let_go};
ghost use Rattle.events.specs.Event.{at, flat};
ghost use Rattle.judge.specs.Judge.{next_slot, next_kind, opens, judged};
ghost use Rattle.judge.specs.Ruling.{place_of, ruling_of, acted};
ghost use Rattle.judge.specs.Contract.{Ready, Whole, Tells};

use frame::Channel;
use judge::{Act, Place, Ruling};
use packet::Packet;
use state::{Head, Slot, Station};
use transport::Transport;

// The slots afterwards, and how many events the list has.
#[derive(Clone, Copy)]
pub struct Told {
    pub slots: [Slot; Station::SLOTS],
    pub events: usize,
}

// The data of a packet into the block at a place of slot k, by the owners of the blocks.
fn write(owner: &[u8], blocks: u16, k: usize, place: usize, data: &[u8], store: &mut [u8])
    requires lent { (k < 32) × (blocks ≤ length owner.now) × (length store.old ≡ 8190 * blocks) }
    requires place_in_bounds { (place < length (numbers_of (suc k) 0 (take blocks owner.now))) × (length «data».now ≤ 8190) }
    ensures { store.new ≡ put store.old (8190 * get_or (numbers_of (suc k) 0 (take blocks owner.now)) place 0) «data».now }
{
    let n = blocks as usize;
    let b = blocks::block_at(owner, n, k as u8 + 1, place);
    octets::copy(data, store, Transport::BLOCK * b);
}

// The events of a file opened in slot k: 10, and for a whole file 12.
fn open_events(list: &mut [u16], n: usize, flags: u8, application: u16, k: usize) -> usize
    requires { (k < 32) × (3 * (n + 2) ≤ length list.old) }
    ensures value { result ≡ n + length (at 10 application k ∷ (if eqb flags 3 then at 12 application k ∷ [] else [])) }
    ensures list_after { list.new ≡ put list.old (3 * n) (flat (at 10 application k ∷ (if eqb flags 3 then at 12 application k ∷ [] else []))) }
{
    let m = events::emit(list, n, 10, application, k as u16);
    if flags == Packet::WHOLE {
        events::emit(list, m, 12, application, k as u16)
    } else {
        m
    }
}

// A file opened in slot k.
fn open_at(
    channel: Channel,
    head: Head,
    owner: &mut [u8; Station::MOST_BLOCKS as usize],
    slots: [Slot; Station::SLOTS],
    h: Packet,
    data: &[u8],
    k: usize,
    t: Transport,
    store: &mut [u8],
    list: &mut [u16],
    n: usize,
) -> Told
    requires ready { Ready (station_of head owner.old slots) store.old list.old n 2 }
    requires fresh { (k < 32) × (held (get_or slots k no_file) ≡ false) × (1 ≤ need t.bits) × (need t.bits ≤ room_of (station_of head owner.old slots)) × (length «data».now ≤ 8190) }
    ensures { Tells (opens channel (station_of head owner.old slots) store.old h «data».now k t) n list.old (station_of head owner.new result.slots) result.events store.new list.new }
{
    let x = Slot {
        channel,
        application: h.application,
        bits: t.bits,
        count: h.count,
        accepted: 1,
    };
    let after = blocks::open_file(head, owner, slots, k, x);
    write(owner, head.blocks, k, 0, data, store);
    let events = open_events(list, n, h.flags, h.application.0, k);
    Told {
        slots: after,
        events,
    }
}

// The file of slot k ended: event 6.
fn end_file(
    head: Head,
    owner: &mut [u8; Station::MOST_BLOCKS as usize],
    slots: [Slot; Station::SLOTS],
    h: Packet,
    k: usize,
    list: &mut [u16],
    n: usize,
) -> Told
    requires { (k < 32) × (head.blocks ≤ 4096) × (length owner.old ≡ 4096) × (3 * (n + 1) ≤ length list.old) }
    ensures slots_after { station_of head owner.new result.slots ≡ let_go (station_of head owner.old slots) k }
    ensures events_value { (result.events ≡ n + 1) × (list.new ≡ put list.old (3 * n) (6 ∷ h.application.0 ∷ k ∷ [])) }
{
    let after = blocks::let_go(head, owner, slots, k);
    let events = events::emit(list, n, 6, h.application.0, k as u16);
    Told {
        slots: after,
        events,
    }
}

// The file of slot k ended, and the new one of the pair begun where it was placed.
fn begin_over(
    k: usize,
    place: Place,
    channel: Channel,
    head: Head,
    owner: &mut [u8; Station::MOST_BLOCKS as usize],
    slots: [Slot; Station::SLOTS],
    h: Packet,
    data: &[u8],
    store: &mut [u8],
    list: &mut [u16],
    n: usize,
) -> Told
    requires ready { Ready (station_of head owner.old slots) store.old list.old n 3 }
    requires placed { (k < 32) × (place_of head.blocks (set slots k no_file) (begun_of h.flags «data».now) ≡ place) × (length «data».now ≤ 8190) }
    ensures { Tells (acted channel (station_of head owner.old slots) store.old h «data».now (Act.Over k place)) n list.old (station_of head owner.new result.slots) result.events store.new list.new }
{
    let ended = end_file(head, owner, slots, h, k, list, n);
    let left = ended.slots;
    match place {
        Place::Denied(kind) => Told {
            slots: left,
            events: events::emit(list, ended.events, kind, h.application.0, 0),
        },
        Place::Granted(j, t) => open_at(
            channel,
            head,
            owner,
            left,
            h,
            data,
            j,
            t,
            store,
            list,
            ended.events,
        ),
    }
}

// Event 11, or 12 for the last packet.
fn next_event(flags: u8) -> u16
    ensures { result ≡ (if eqb flags 2 then 12 else 11) }
{
    if flags == Packet::LAST { 12 } else { 11 }
}

// A packet more for the file of slot k.
fn go_on(
    blocks: u16,
    owner: &[u8],
    slots: [Slot; Station::SLOTS],
    h: Packet,
    data: &[u8],
    k: usize,
    store: &mut [u8],
    list: &mut [u16],
    n: usize,
) -> Told
    requires lent { (k < 32) × (blocks ≤ length owner.now) × (length store.old ≡ 8190 * blocks) × (3 * (n + 1) ≤ length list.old) }
    requires place_in_bounds { ((get_or slots k no_file).accepted < length (numbers_of (suc k) 0 (take blocks owner.now))) × (length «data».now ≤ 8190) }
    ensures slots_value { result.slots ≡ set slots k (next_slot (get_or slots k no_file) h) }
    ensures store_after { store.new ≡ put store.old (8190 * get_or (numbers_of (suc k) 0 (take blocks owner.now)) (get_or slots k no_file).accepted 0) «data».now }
    ensures events_value { (result.events ≡ n + 1) × (list.new ≡ put list.old (3 * n) (next_kind h ∷ h.application.0 ∷ k ∷ [])) }
{
    let mut after = slots;
    let mut x = after[k];
    let place = x.accepted as usize;
    write(owner, blocks, k, place, data, store);
    x.count = h.count;
    x.accepted += 1;
    after[k] = x;
    let events = events::emit(list, n, next_event(h.flags), h.application.0, k as u16);
    Told {
        slots: after,
        events,
    }
}

// What was decided to be done to a file, done.
pub fn carry_out(
    act: Act,
    channel: Channel,
    head: Head,
    owner: &mut [u8; Station::MOST_BLOCKS as usize],
    slots: [Slot; Station::SLOTS],
    h: Packet,
    packet: &[u8],
    store: &mut [u8],
    list: &mut [u16],
    n: usize,
) -> Told
    requires ready { Ready (station_of head owner.old slots) store.old list.old n 3 }
    requires whole { Whole packet.now × (h ≡ packet_of packet.now) × (ruling_of channel head.blocks slots packet.now ≡ Ruling.Does act) }
    ensures { Tells (judged channel (station_of head owner.old slots) store.old packet.now) n list.old (station_of head owner.new result.slots) result.events store.new list.new }
{
    let end = packet.len() - Packet::CHECK;
    let data = &packet[Packet::HEADER..end];
    match act {
        Act::Opens(k, t) => open_at(channel, head, owner, slots, h, data, k, t, store, list, n),
        Act::Over(k, p) => {
            begin_over(k, p, channel, head, owner, slots, h, data, store, list, n)
        }
        Act::GoesOn(k) => go_on(head.blocks, owner, slots, h, data, k, store, list, n),
        Act::Ends(k) => end_file(head, owner, slots, h, k, list, n),
    }
}
