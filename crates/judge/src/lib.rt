// What one whole packet does, decided.
//
// What comes of a packet is decided here, and done above (`act`). The decision looks at slots for an intact packet of a file alone, and changes
// nothing: a packet that only gives an event moves no state. Promises: the decision is one definition, ruling_of (specs/Ruling.antt), and what
// is done by it is what the paper says of the packet, judged (specs/Judge.antt; proofs/Rulings.antt). A sound state stays sound
// (proofs/Keeps.antt), and a packet gives three events at most.
#![tactic(auto)]

ghost use Rattle.std.specs.Prelude.{◌≡◌, ◌||◌, ◌≤◌, ◌<◌, eqb, length, set, Some};
ghost use Rattle.packet.specs.Header.{packet_of};
ghost use Rattle.transport.specs.Shape.{begun_of};
ghost use Rattle.state.specs.Slots.{no_file};
ghost use Rattle.state.specs.Blocks.{needs as needs_of};
ghost use Rattle.judge.specs.Judge.{is_intact};
ghost use Rattle.judge.specs.Ruling.{place_of, new_ruling, next_ruling, file_ruling, ruling_of};
ghost use Rattle.judge.specs.Contract.{Whole};

use frame::Channel;
use packet::{Application, Packet};
use state::{Slot, Station};
use transport::Transport;

// Where a file that begins is placed: nowhere, with an event of this kind, or in this slot.
#[derive(Clone, Copy)]
pub enum Place {
    Denied(u16),
    Granted(usize, Transport),
}

// What a packet does to a file: it opens one in a slot; it ends the one in a slot, and another begins; it goes on with the one in a slot;
// it ends it.
#[derive(Clone, Copy)]
pub enum Act {
    Opens(usize, Transport),
    Over(usize, Place),
    GoesOn(usize),
    Ends(usize),
}

// What is decided of a packet: it is skipped, it gives an event of this kind and touches no file, or it does something to a file.
#[derive(Clone, Copy)]
pub enum Ruling {
    Skips,
    Says(u16),
    Does(Act),
}

// Whether the last two octets are the check of the data before them, header not included.
fn intact(packet: &[u8]) -> bool
    requires { 8 ≤ length packet.now }
    ensures { result ≡ is_intact packet.now }
{
    let end = packet.len() - Packet::CHECK;
    crc::crc(&packet[Packet::HEADER..end]) == octets::u16_at(packet, end)
}

// Flags 1 (first) or 3 (whole).
fn starts_file(flags: u8) -> bool
    ensures { result ≡ (eqb flags 1 || eqb flags 3) }
{
    flags == Packet::FIRST || flags == Packet::WHOLE
}

// Events 7, 8 and 9, in this order, or the lowest free slot.
fn place_of(blocks: u16, slots: [Slot; Station::SLOTS], flags: u8, data: &[u8]) -> Place
    requires { needs_of slots ≤ blocks }
    ensures { result ≡ place_of blocks slots (begun_of flags «data».now) }
{
    let Some(t) = transport::begin(flags, data) else {
        return Place::Denied(7);
    };
    let Some(k) = room::free_slot(slots) else {
        return Place::Denied(8);
    };
    let left = blocks as u64 - room::needs(slots);
    if left < transport::need(t.bits) {
        return Place::Denied(9);
    }
    Place::Granted(k, t)
}

// Flags 1 or 3, with no file of the pair.
fn rule_new(blocks: u16, slots: [Slot; Station::SLOTS], flags: u8, data: &[u8]) -> Ruling
    requires { needs_of slots ≤ blocks }
    ensures { result ≡ new_ruling (place_of blocks slots (begun_of flags «data».now)) }
{
    match place_of(blocks, slots, flags, data) {
        Place::Denied(kind) => Ruling::Says(kind),
        Place::Granted(k, t) => Ruling::Does(Act::Opens(k, t)),
    }
}

// Flags 1 or 3, with a file of the pair in slot k: it is abandoned, whatever follows, and the new one is placed as if it were gone.
fn rule_over(blocks: u16, slots: [Slot; Station::SLOTS], k: usize, flags: u8, data: &[u8]) -> Ruling
    requires { (k < 32) × (needs_of slots ≤ blocks) }
    ensures { result ≡ Ruling.Does (Act.Over k (place_of blocks (set slots k no_file) (begun_of flags «data».now))) }
{
    let mut left = slots;
    left[k] = Slot::none();
    Ruling::Does(Act::Over(k, place_of(blocks, left, flags, data)))
}

// Flags 0 or 2, with a file of the pair in slot k.
fn rule_next(slots: [Slot; Station::SLOTS], k: usize, h: Packet, data: &[u8]) -> Ruling
    requires { k < 32 }
    ensures { result ≡ next_ruling slots h «data».now (Some k) }
{
    let x = slots[k];
    if transport::fits(h.flags, data.len(), x.bits, x.accepted, x.count, h.count) {
        Ruling::Does(Act::GoesOn(k))
    } else {
        Ruling::Does(Act::Ends(k))
    }
}

// An intact packet of a file.
fn rule_file(
    channel: Channel,
    blocks: u16,
    slots: [Slot; Station::SLOTS],
    h: Packet,
    data: &[u8],
) -> Ruling
    requires { needs_of slots ≤ blocks }
    ensures { result ≡ file_ruling channel blocks slots h «data».now }
{
    let file = room::file_of(slots, channel, h.application);
    if starts_file(h.flags) {
        let Some(k) = file else {
            return rule_new(blocks, slots, h.flags, data);
        };
        return rule_over(blocks, slots, k, h.flags, data);
    }
    let Some(k) = file else {
        return Ruling::Says(5);
    };
    rule_next(slots, k, h, data)
}

// A whole packet with its header.
pub fn rule(
    channel: Channel,
    blocks: u16,
    slots: [Slot; Station::SLOTS],
    h: Packet,
    packet: &[u8],
) -> Ruling
    requires { Whole packet.now × (h ≡ packet_of packet.now) × (needs_of slots ≤ blocks) }
    ensures { result ≡ ruling_of channel blocks slots packet.now }
{
    if h.application.0 == Application::FILL {
        return Ruling::Skips;
    }
    if h.application.0 > Application::LAST_FILE {
        return Ruling::Says(13);
    }
    if !intact(packet) {
        return Ruling::Says(4);
    }
    let end = packet.len() - Packet::CHECK;
    rule_file(channel, blocks, slots, h, &packet[Packet::HEADER..end])
}
