// The exact decision whether a state is sound.
//
// Promises: true exactly if what the paper's list says of the state alone holds (state specs/Sound.antt, specs/Decision.antt). The channels, the owners,
// the slots and the desks are decided in crates of their own; the octets of the desks, which are no part of the state, in `desks`.
#![tactic(auto)]

ghost use Rattle.std.specs.Prelude.{◌≡◌, map, length, take};
ghost use Rattle.state.specs.Slots.{number, station_of};
ghost use Rattle.state.specs.Decision.{set_up_sound, is_sound};

use frame::Channel;
use state::{Head, Slot, Station};

// The numbers of the channels.
fn numbers(watched: [Channel; Channel::MOST]) -> [u8; Channel::MOST]
    ensures { result ≡ map number watched }
{
    watched.map(|channel| channel.0)
}

// Set-up, with the names of the channels watched among eight.
fn set_up_sound(channels: u8, names: [u8; Channel::MOST], blocks: u16) -> bool
    ensures { result ≡ set_up_sound channels (take channels names) blocks }
{
    if channels > Station::MOST_CHANNELS {
        return false;
    }
    let n = channels as usize;
    if !channels::good_channels(&names[0..n]) {
        return false;
    }
    if blocks == 0 {
        return false;
    }
    blocks <= Station::MOST_BLOCKS
}

// What the state alone says, in its parts: one pass over the blocks.
pub fn are_parts_sound(head: Head, owner: &[u8], slots: [Slot; Station::SLOTS]) -> bool
    requires { length owner.now ≡ 4096 }
    ensures { result ≡ is_sound (station_of head owner.now slots) }
{
    let watched = head.watched;
    let names = numbers(watched);
    if !set_up_sound(head.channels, names, head.blocks) {
        return false;
    }
    let n = head.channels as usize;
    let owners = owners::count_owners(owner, head.blocks as usize);
    if !owners.good {
        return false;
    }
    let counts = owners.counts;
    if !slots::slots_sound(&names[0..n], counts, slots) {
        return false;
    }
    let desks = head.desks;
    desks::desks_hold(desks, head.channels)
}

pub fn is_sound(s: Station) -> bool
    ensures { result ≡ is_sound s }
{
    let head = s.head();
    let slots = s.slots;
    are_parts_sound(head, &s.owner, slots)
}
