// Blocks: those that a file takes when it is opened, those that it gives back when it is let go, and the one at a place of it.
//
// Promises: the N lowest free blocks go to the file, in rising order, all its blocks become free again, and no other entry of the table
// changes. What that means for a state, and that it stays sound, is proved on the definitions (room proofs/Keeps.antt).
#![tactic(auto)]

ghost use Rattle.std.specs.Prelude.{◌≡◌, ◌≤◌, ◌<◌, length, get_or, take, eqb, if◌then◌else◌};
ghost use Rattle.state.specs.Slots.{station_of};
ghost use Rattle.state.specs.Blocks.{numbers_of};
ghost use Rattle.room.specs.Move.{given, opened, let_go};

use state::{Head, Slot, Station};

// The first count blocks, rising, of the owner from among the first n go to the owner to.
fn move_blocks(
    owner: &mut [u8; Station::MOST_BLOCKS as usize],
    n: usize,
    from: u8,
    to: u8,
    count: usize,
)
    requires { (n ≤ 4096) × (length owner.old ≡ 4096) }
    ensures { owner.new ≡ given to (take count (numbers_of from 0 (take n owner.old))) owner.old }
{
    let mut left = count;
    for b in 0..n {
        if left == 0 {
            return;
        }
        if owner[b] == from {
            owner[b] = to;
            left -= 1;
        }
    }
}

// An owner after the blocks of one owner became free.
fn kept(o: u8, from: u8) -> u8
    ensures { result ≡ (if eqb o from then 0 else o) }
{
    if o == from { 0 } else { o }
}

// All blocks of the owner from among the first n become free. Each entry is written, whoever owns it: a loop without a test is quicker.
fn free_blocks(owner: &mut [u8; Station::MOST_BLOCKS as usize], n: usize, from: u8)
    requires { (n ≤ 4096) × (length owner.old ≡ 4096) }
    ensures { owner.new ≡ given 0 (numbers_of from 0 (take n owner.old)) owner.old }
{
    for b in 0..n {
        owner[b] = kept(owner[b], from);
    }
}

// A file opened in slot k.
pub fn open_file(
    head: Head,
    owner: &mut [u8; Station::MOST_BLOCKS as usize],
    slots: [Slot; Station::SLOTS],
    k: usize,
    x: Slot,
) -> [Slot; Station::SLOTS]
    requires { (k < 32) × (head.blocks ≤ 4096) × (length owner.old ≡ 4096) }
    ensures { station_of head owner.new result ≡ opened (station_of head owner.old slots) k x }
{
    let n = head.blocks as usize;
    move_blocks(owner, n, 0, k as u8 + 1, x.need() as usize);
    let mut after = slots;
    after[k] = x;
    after
}

// The file of slot k let go.
pub fn let_go(
    head: Head,
    owner: &mut [u8; Station::MOST_BLOCKS as usize],
    slots: [Slot; Station::SLOTS],
    k: usize,
) -> [Slot; Station::SLOTS]
    requires { (k < 32) × (head.blocks ≤ 4096) × (length owner.old ≡ 4096) }
    ensures { station_of head owner.new result ≡ let_go (station_of head owner.old slots) k }
{
    let n = head.blocks as usize;
    free_blocks(owner, n, k as u8 + 1);
    let mut after = slots;
    after[k] = Slot::none();
    after
}

// The block at a place of an owner among the first n, or 0 where there is none.
pub fn block_at(owner: &[u8], n: usize, o: u8, place: usize) -> usize
    requires { n ≤ length owner.now }
    ensures { result ≡ get_or (numbers_of o 0 (take n owner.now)) place 0 }
{
    let mut still = place;
    for b in 0..n {
        if owner[b] == o {
            if still == 0 {
                return b;
            }
            still -= 1;
        }
    }
    0
}
