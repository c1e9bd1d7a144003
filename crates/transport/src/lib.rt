// The transport header: ten octets in front of a file, and what follows from the bit length in them.
//
// Owns the length rule (behind the names good_length and octets_of_bits), the need in blocks, and the four shapes of a file's packets.
// Promises: the need and the rest are exact for every length up to 2^64 - 1; a packet's shape is decided as the paper gives it; data of
// any octets that would begin a file is answered.
#![tactic(auto)]

ghost use Rattle.std.specs.Prelude.{◌≡◌, ◌≤◌, length};
ghost use Rattle.transport.specs.Length.{transport_of, good_length, octets_of_bits, transport_size, need as need_of, rest as rest_of};
ghost use Rattle.transport.specs.Shape.{first_fits, whole_fits, middle_fits, last_fits, fits as fits_of, begun_of};

use packet::{Count, Packet};

// What the transport header says: the file counter, and the length of the file in bits.
#[derive(Clone, Copy)]
pub struct Transport {
    pub counter: u16,
    pub bits: u64,
}

impl Transport {
    pub const HEADER: usize = 10;
    // The data of every packet of a file but the last; also the size of a store block.
    pub const BLOCK: usize = 8190;

    pub fn read(data: &[u8]) -> Transport
        requires { 10 ≤ length «data».now }
        ensures { result ≡ transport_of «data».now }
    {
        Transport {
            counter: octets::u16_at(data, 0),
            bits: octets::u64_at(data, 2),
        }
    }
}

// Whether a file can have this length.
pub fn good_length(bits: u64) -> bool
    ensures { result ≡ good_length bits }
{
    bits != 0
}

// The octets of a file of this length.
pub fn octets_of_bits(bits: u64) -> u64
    ensures { (result ≡ octets_of_bits bits) × (result ≤ 2305843009213693952) }
{
    octets::rounded_up(bits)
}

// The octets of the file with its transport header.
pub fn transport_size(bits: u64) -> u64
    ensures { (result ≡ transport_size bits) × (result ≤ 2305843009213693962) }
{
    Transport::HEADER as u64 + octets_of_bits(bits)
}

// The blocks that a file of this length needs.
pub fn need(bits: u64) -> u64
    ensures { result ≡ need_of bits }
{
    let block = Transport::BLOCK as u64;
    (transport_size(bits) + (block - 1)) / block
}

// The octets that its last packet carries.
pub fn rest(bits: u64) -> u64
    ensures { result ≡ rest_of bits }
{
    transport_size(bits) - Transport::BLOCK as u64 * (need(bits) - 1)
}

fn first_fits(n: usize, bits: u64) -> bool
    ensures { result ≡ first_fits n bits }
{
    n == Transport::BLOCK && 2 <= need(bits)
}

fn whole_fits(n: usize, bits: u64) -> bool
    ensures { result ≡ whole_fits n bits }
{
    n as u64 == transport_size(bits) && need(bits) == 1
}

fn middle_fits(n: usize, bits: u64, accepted: u16, last: Count, count: Count) -> bool
    ensures { result ≡ middle_fits n bits accepted last count }
{
    count.follows(last) && n == Transport::BLOCK && accepted as u64 + 1 != need(bits)
}

fn last_fits(n: usize, bits: u64, accepted: u16, last: Count, count: Count) -> bool
    ensures { result ≡ last_fits n bits accepted last count }
{
    count.follows(last) && accepted as u64 + 1 == need(bits) && n as u64 == rest(bits)
}

// Whether n octets of data are the right shape for a packet with these flags, of a file of this length, after so many packets accepted.
pub fn fits(flags: u8, n: usize, bits: u64, accepted: u16, last: Count, count: Count) -> bool
    ensures { result ≡ fits_of flags n bits accepted last count }
{
    match flags {
        Packet::FIRST => first_fits(n, bits),
        Packet::WHOLE => whole_fits(n, bits),
        Packet::MIDDLE => middle_fits(n, bits, accepted, last, count),
        Packet::LAST => last_fits(n, bits, accepted, last, count),
        _ => false,
    }
}

// What the data of a packet with flags 1 or 3 begins: a file with this transport header, or nothing right.
pub fn begin(flags: u8, data: &[u8]) -> Option<Transport>
    ensures { result ≡ begun_of flags «data».now }
{
    if data.len() < Transport::HEADER {
        return None;
    }
    let t = Transport::read(data);
    if !good_length(t.bits) {
        return None;
    }
    let shaped = match flags {
        Packet::FIRST => first_fits(data.len(), t.bits),
        Packet::WHOLE => whole_fits(data.len(), t.bits),
        _ => false,
    };
    shaped.then_some(t)
}
