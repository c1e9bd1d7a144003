// M, P and Q: what is lent, and octets and fields that a script sets.
ghost use Rattle.std.specs.Prelude.{◌≡◌, ◌%◌, ◌^◌, set, get_or};
ghost use Rattle.state.specs.Slots.{no_file, empty_desk};
ghost use Rattle.script.specs.Memory.{memory, lent, octet_set, poked_by};
ghost use Rattle.script.specs.Pokes.{desk_poked, slot_poked, poked};

use crate::{Command, Run};
use frame::{Channel, Counter};
use packet::{Application, Count};
use state::{Desk, Slot, Station};

#[tactic(auto, unfolding(crate::specs::Memory::lent))]
fn lend(w: Run, x: Command, desks: &[u8], store: &[u8]) -> Run
    ensures memory_value { memory result desks.now store.now ≡ lent x (memory w desks.now store.now) }
    ensures end_value { result.end ≡ w.end }
{
    let mut r = w;
    r.desks = octets::least(x.c as usize, desks.len());
    r.store = octets::least(x.d as usize, store.len());
    r
}

// The octet at index d becomes v, if there is one.
fn set_octet(buffer: &mut [u8], d: u64, v: u8)
    ensures { buffer.new ≡ set buffer.old d v }
{
    if d < buffer.len() as u64 {
        buffer[d as usize] = v;
    }
}

#[tactic(auto, unfolding(crate::specs::Memory::octet_set))]
fn poke_octet(x: Command, desks: &mut [u8], store: &mut [u8])
    ensures { (desks.new ≡ octet_set 0 x desks.old) × (store.new ≡ octet_set 1 x store.old) }
{
    let v = (x.b % 256) as u8;
    match x.a {
        0 => set_octet(desks, x.d, v),
        1 => set_octet(store, x.d, v),
        _ => {}
    }
}

#[tactic(auto, unfolding(crate::specs::Pokes::desk_poked))]
fn poke_desk(x: Desk, a: u8, d: u64) -> Desk
    ensures { result ≡ desk_poked a d x }
{
    let mut y = x;
    match a {
        3 => y.held = (d % 65536) as u16,
        4 => y.seen = d != 0,
        5 => y.counter = Counter((d % 4294967296) as u32),
        _ => {}
    }
    y
}

#[tactic(auto, unfolding(crate::specs::Pokes::slot_poked))]
fn poke_slot(x: Slot, a: u8, d: u64) -> Slot
    ensures { result ≡ slot_poked a d x }
{
    let mut y = x;
    match a {
        8 => y.channel = Channel((d % 256) as u8),
        9 => y.application = Application((d % 65536) as u16),
        10 => y.bits = d,
        11 => y.count = Count((d % 65536) as u16),
        12 => y.accepted = (d % 65536) as u16,
        _ => {}
    }
    y
}

fn poke_watched(watched: [Channel; 8], b: u16, d: u64) -> [Channel; 8]
    ensures { result ≡ set watched b (record { 0 = d % 2 ^ 8 }) }
{
    let mut after = watched;
    let i = b as usize;
    if i < 8 {
        after[i] = Channel((d % 256) as u8);
    }
    after
}

fn poke_desks(desks: [Desk; 8], a: u8, b: u16, d: u64) -> [Desk; 8]
    ensures { result ≡ set desks b (desk_poked a d (get_or desks b empty_desk)) }
{
    let mut after = desks;
    let i = b as usize;
    if i < 8 {
        after[i] = poke_desk(after[i], a, d);
    }
    after
}

fn poke_slots(slots: [Slot; 32], a: u8, b: u16, d: u64) -> [Slot; 32]
    ensures { result ≡ set slots b (slot_poked a d (get_or slots b no_file)) }
{
    let mut after = slots;
    let i = b as usize;
    if i < Station::SLOTS {
        after[i] = poke_slot(after[i], a, d);
    }
    after
}

// Field a of the state, of index b where it is an array, becomes d modulo its width.
#[tactic(auto, unfolding(crate::specs::Pokes::poked))]
fn poke_state(s: Station, a: u8, b: u16, d: u64) -> Station
    ensures { result ≡ poked a b d s }
{
    let mut t = s;
    let i = b as usize;
    match a {
        0 => t.spacecraft = (d % 256) as u8,
        1 => t.channels = (d % 256) as u8,
        2 => t.watched = poke_watched(t.watched, b, d),
        3..=5 => t.desks = poke_desks(t.desks, a, b, d),
        6 => t.blocks = (d % 65536) as u16,
        7 if i < Station::MOST_BLOCKS as usize => t.owner[i] = (d % 256) as u8,
        8..=12 => t.slots = poke_slots(t.slots, a, b, d),
        _ => {}
    }
    t
}

// M, P or Q, by the letter. They print nothing.
#[tactic(auto, unfolding(crate::specs::Memory::octet_poked, crate::specs::Memory::state_poked, crate::specs::Memory::poked_by))]
pub fn poke(w: Run, x: Command, desks: &mut [u8], store: &mut [u8]) -> Run
    ensures memory_after { memory result desks.new store.new ≡ poked_by x (memory w desks.old store.old) }
    ensures end_value { result.end ≡ 0 }
{
    let mut r = w;
    r.end = 0;
    match x.letter {
        b'M' => return lend(r, x, desks, store),
        b'P' => poke_octet(x, desks, store),
        b'Q' => r.station = poke_state(r.station, x.a, x.b, x.d),
        _ => {}
    }
    r
}
