// Room: which slot is free, which file a packet belongs to, and what the held files need; and the definitions and laws of the blocks that a
// file takes and gives back, and of the octets in them, whose code stands in `blocks` and `pages`.
//
// Promises: the lowest slot of each kind is found, and taking and giving back blocks keep the state sound and touch no other file's places
// (proofs/Keeps.antt).
#![tactic(auto)]

ghost use Rattle.std.specs.Prelude.{◌≡◌};
ghost use Rattle.state.specs.Blocks.{needs as needs_of};
ghost use Rattle.room.specs.Find.{free_from, file_from};

use frame::Channel;
use packet::Application;
use state::{Slot, Station};

// The lowest free slot.
pub fn free_slot(slots: [Slot; Station::SLOTS]) -> Option<usize>
    ensures { result ≡ free_from 0 slots }
{
    slots.iter().position(|x| !x.is_held())
}

// The slot of the incomplete file of a channel and application.
pub fn file_of(
    slots: [Slot; Station::SLOTS],
    channel: Channel,
    application: Application,
) -> Option<usize>
    ensures { result ≡ file_from 0 channel application slots }
{
    slots
        .iter()
        .position(|x| x.is_incomplete_of(channel, application))
}

// The needs of the held files, all together. No sum of 32 needs can wrap.
pub fn needs(slots: [Slot; Station::SLOTS]) -> u64
    ensures { result ≡ needs_of slots }
{
    let mut sum: u64 = 0;
    for x in &slots {
        if x.is_held() {
            sum += x.need();
        }
    }
    sum
}
