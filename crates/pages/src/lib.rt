// Pages: the octets in the blocks of a file, read as one row.
//
// Promises: a buffer is filled with the octets from a place on of the blocks joined (room specs/File.antt); nothing else is written.
#![tactic(auto)]

ghost use Rattle.std.specs.Prelude.{◌≡◌, ◌+◌, ◌*◌, ◌≤◌, length, take};
ghost use Rattle.octets.specs.Number.{part};
ghost use Rattle.state.specs.Blocks.{numbers_of};
ghost use Rattle.room.specs.File.{joined};

use transport::Transport;

// The octets of an owner's blocks, one after the other, from place from on, to fill a buffer. While octets are wanted there is a block:
// the requires says that the blocks have as many.
pub fn copy_out(owner: &[u8], n: usize, o: u8, store: &[u8], from: usize, buffer: &mut [u8])
    requires n_in_bounds { (n ≤ length owner.now) × (length store.now ≡ 8190 * n) }
    requires buffer_bound { from + length buffer.old ≤ 8190 * length (numbers_of o 0 (take n owner.now)) }
    ensures { buffer.new ≡ part from (length buffer.old) (joined store.now (numbers_of o 0 (take n owner.now))) }
{
    let mut skip = from;
    let mut done = 0;
    for b in 0..n {
        if buffer.len() <= done {
            return;
        }
        if owner[b] == o {
            if skip < Transport::BLOCK {
                let size = octets::least(Transport::BLOCK - skip, buffer.len() - done);
                let at = b * Transport::BLOCK + skip;
                let end = at + size;
                octets::copy(&store[at..end], buffer, done);
                done += size;
                skip = 0;
            } else {
                skip -= Transport::BLOCK;
            }
        }
    }
}
