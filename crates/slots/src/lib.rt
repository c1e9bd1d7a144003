// Whether the slots of a state are sound.
//
// Promises: true exactly if each slot, with the number of its blocks, is sound for the channels that are watched, and no two incomplete files are
// of one pair (state specs/Decision.antt). The callers of this crate bring the number of each slot's blocks.
#![tactic(auto)]

ghost use Rattle.std.specs.Prelude.{◌≡◌, true, ◌&&◌};
ghost use Rattle.state.specs.Slots.{held, incomplete, need_of};
ghost use Rattle.state.specs.Decision.{free_sound, slot_sound, slots_sound, twin_in, no_twins};

use packet::{Application, Count};
use state::{Slot, Station};

// A free slot that owns n blocks. One test for four numbers: most slots are free.
fn free_sound(n: u16, x: Slot) -> bool
    ensures { result ≡ free_sound n x }
{
    let channel = x.channel;
    let application = x.application;
    let count = x.count;
    if ((channel.0 as u16 | application.0) | (count.0 | n)) != 0 {
        return false;
    }
    x.bits == 0
}

// A held slot that owns n blocks and needs so many.
fn held_sound(channels: &[u8], n: u16, x: Slot, need: u64) -> bool
    requires { (held x ≡ true) × (need ≡ need_of x) }
    ensures { result ≡ slot_sound channels.now n x }
{
    let channel = x.channel;
    let application = x.application;
    let count = x.count;
    if x.accepted as u64 > need {
        return false;
    }
    if !channels::among(channels, 0, channel.0) {
        return false;
    }
    if application.0 > Application::LAST_FILE {
        return false;
    }
    if !transport::good_length(x.bits) {
        return false;
    }
    let checked = Count::checked(count.0);
    let Some(_) = checked else {
        return false;
    };
    n as u64 == need
}

// A slot that owns n blocks.
fn slot_sound(channels: &[u8], n: u16, x: Slot) -> bool
    ensures { result ≡ slot_sound channels.now n x }
{
    if x.accepted == 0 {
        return free_sound(n, x);
    }
    let need = x.need();
    held_sound(channels, n, x, need)
}

// Whether a slot's file is incomplete, and another of its pair stands behind it.
fn has_twin(x: Slot, behind: &[Slot]) -> bool
    ensures { result ≡ (incomplete x && twin_in x behind.now) }
{
    x.is_incomplete()
        && behind
            .iter()
            .any(|y| y.is_incomplete_of(x.channel, x.application))
}

// Each slot, with the number of its blocks, and no two incomplete files of one pair: one pass.
pub fn slots_sound(
    channels: &[u8],
    counts: [u16; Station::SLOTS],
    slots: [Slot; Station::SLOTS],
) -> bool
    ensures { result ≡ (slots_sound channels.now counts slots && no_twins slots) }
{
    for (k, x) in slots.iter().enumerate() {
        if !slot_sound(channels, counts[k], *x) {
            return false;
        }
        if has_twin(*x, &slots[k + 1..]) {
            return false;
        }
    }
    true
}
