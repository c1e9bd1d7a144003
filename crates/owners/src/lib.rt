// How many blocks each slot owns.
//
// Owns the pass over the blocks' owners. Promises: each slot's count is the number of its blocks, and the owners pass exactly if each is a slot or
// none (proofs/Counts.antt); every block is looked at once.
#![tactic(auto)]

ghost use Rattle.std.specs.Prelude.{◌≡◌, ◌+◌, ◌≤◌, ◌<◌, length, take};
ghost use Rattle.octets.specs.Each.{each};
ghost use Rattle.octets.specs.Number.{part};
ghost use Rattle.octets.specs.Buffer.{all_zero};
ghost use Rattle.state.specs.Decision.{is_owner, block_counts};
ghost use Rattle.owners.specs.Tally.{Tallies};

use state::Station;

// An owner is an octet.
const TALLIES: usize = 256;

// One block more in a tally of the b blocks before it. The tally is lent: by value it would be copied for each block.
fn tally_block(owner: &[u8], b: usize, tally: &mut [u16])
    requires b_bound { (b < 4096) × (b < length owner.now) × (length tally.old ≡ 256) }
    requires tallies { Tallies (take b owner.now) tally.old }
    ensures { Tallies (take (b + 1) owner.now) tally.new }
{
    let o = owner[b] as usize;
    tally[o] += 1;
}

// Four blocks more, with no test between them.
fn tally_four(owner: &[u8], b: usize, tally: &mut [u16])
    requires b_bound { (b + 4 ≤ 4096) × (b + 4 ≤ length owner.now) × (length tally.old ≡ 256) }
    requires tallies { Tallies (take b owner.now) tally.old }
    ensures { Tallies (take (b + 4) owner.now) tally.new }
{
    tally_block(owner, b, tally);
    tally_block(owner, b + 1, tally);
    tally_block(owner, b + 2, tally);
    tally_block(owner, b + 3, tally);
}

// The first blocks of n, eight a turn, in a tally of none; how many they are: fewer than eight are left.
fn tally_eights(owner: &[u8], n: usize, tally: &mut [u16]) -> usize
    requires n_bound { (n ≤ 4096) × (n ≤ length owner.now) × (length tally.old ≡ 256) }
    requires tallies { Tallies (take 0 owner.now) tally.old }
    ensures { (result ≤ n) × Tallies (take result owner.now) tally.new }
{
    let turns = n / 8;
    for turn in 0..turns {
        let b = turn * 8;
        tally_four(owner, b, tally);
        tally_four(owner, b + 4, tally);
    }
    turns * 8
}

// How often each octet stands among the first n owners. No block is tested: whether an octet is an owner is asked of the tally.
fn tally_owners(owner: &[u8], n: usize) -> [u16; TALLIES]
    requires { (n ≤ 4096) × (n ≤ length owner.now) }
    ensures { Tallies (take n owner.now) result }
{
    let mut tally = [0u16; TALLIES];
    let eights = tally_eights(owner, n, &mut tally);
    for b in eights..n {
        tally_block(owner, b, &mut tally);
    }
    tally
}

// Whether no octet past the last owner was counted.
fn no_strays(tally: [u16; TALLIES]) -> bool
    ensures { result ≡ all_zero (part 33 223 tally) }
{
    let mut any: u16 = 0;
    for o in Station::LAST_OWNER as usize + 1..TALLIES {
        any |= tally[o];
    }
    any == 0
}

// The slots' part of a tally.
fn slots_part(tally: [u16; TALLIES]) -> [u16; Station::SLOTS]
    ensures { result ≡ part 1 32 tally }
{
    let mut counts = [0u16; Station::SLOTS];
    counts.copy_from_slice(&tally[1..Station::SLOTS + 1]);
    counts
}

// How many blocks each slot owns, and whether each block's owner is a slot or none.
#[derive(Clone, Copy)]
pub struct Owners {
    pub good: bool,
    pub counts: [u16; Station::SLOTS],
}

pub fn count_owners(owner: &[u8], n: usize) -> Owners
    requires { (n ≤ 4096) × (n ≤ length owner.now) }
    ensures good_value { result.good ≡ each is_owner (take n owner.now) }
    ensures counts_value { result.counts ≡ block_counts (take n owner.now) 0 32 }
{
    let tally = tally_owners(owner, n);
    let good = no_strays(tally);
    let counts = slots_part(tally);
    Owners { good, counts }
}
