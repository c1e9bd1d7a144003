// The frame as it comes off the dish: a channel access unit of 1,024 octets.
//
// Owns the frame's sizes and marker, the kinds Channel and Counter, the header, the meaning of the pointer, what refusals 3 to 9 mean, and the
// laws of them; the refusals themselves are found by `examine`. Promises: header fields stand at the bit positions of the paper; a pointer means
// what it says, and a channel's desk is its place among those watched.
#![tactic(auto)]

ghost use Rattle.std.specs.Prelude.{◌≡◌, ◌≤◌, length, take};
ghost use Rattle.frame.specs.Kinds.{checked_channel, checked_counter, next_counter, counter_follows, desk_of};
ghost use Rattle.frame.specs.Header.{frame_of, Bounded, pointer_meaning};

// A channel number. It cannot stand for an application number, nor the other way round.
#[derive(Clone, Copy, PartialEq, Eq)]
pub struct Channel(pub u8);

impl Channel {
    // A channel number has six bits.
    pub const BOUND: u16 = 64;
    // Channels 0 to 62 can be watched.
    pub const LAST: u8 = 62;
    // Frames of this channel only fill the line.
    pub const FILL: u8 = 63;
    // So many at most are watched.
    pub const MOST: usize = 8;

    pub fn checked(n: u8) -> Option<Channel>
        ensures { result ≡ checked_channel n }
    {
        if n <= Channel::LAST {
            return Some(Channel(n));
        }
        None
    }
}

// A frame counter: the frames of one channel count modulo 2^24.
#[derive(Clone, Copy, PartialEq, Eq)]
pub struct Counter(pub u32);

impl Counter {
    pub const MODULUS: u32 = 16777216;

    pub fn checked(n: u32) -> Option<Counter>
        ensures { result ≡ checked_counter n }
    {
        if n < Counter::MODULUS {
            return Some(Counter(n));
        }
        None
    }

    pub fn next(self) -> Counter
        ensures { result ≡ next_counter self }
    {
        let n = (self.0 as u64 + 1) % (Counter::MODULUS as u64);
        Counter(n as u32)
    }

    // Whether this counter is the last plus 1.
    pub fn follows(self, last: Counter) -> bool
        ensures { result ≡ counter_follows last self }
    {
        self == last.next()
    }
}

// What the pointer says of the zone: the offset at which the first packet starts, that none starts, or nothing that is allowed.
#[derive(Clone, Copy)]
pub enum Pointer {
    Offset(u16),
    NoStart,
    Refused,
}

// What a frame's header says.
#[derive(Clone, Copy)]
pub struct Frame {
    pub version: u8,
    pub spacecraft: u8,
    pub channel: Channel,
    pub counter: Counter,
    pub pointer: u16,
}

impl Frame {
    // The whole frame: the marker and what is coded.
    pub const SIZE: usize = 1024;
    // Behind the marker: the unit and its check octets, mixed with the noise.
    pub const CODED: usize = 1020;
    // The unit: header, pointer and packet zone.
    pub const UNIT: usize = 892;
    // The packet zone.
    pub const ZONE: usize = 884;
    // Where the zone begins in what is coded.
    pub const ZONE_AT: usize = 8;
    // The check octets, passed over.
    pub const CHECK: usize = 128;
    // Where what is coded begins in the frame.
    pub const CODED_AT: usize = 4;
    // The octets in front of it.
    pub const MARKER: [u8; Frame::CODED_AT] = *b"\x1A\xCF\xFC\x1D";
    // The one version that is taken.
    pub const VERSION: u8 = 1;
    // The pointer of a zone in which no packet starts.
    pub const NO_START: u16 = 2047;
    // A pointer has eleven bits.
    pub const POINTERS: u16 = 2048;

    // The header of a frame from its derandomised octets.
    pub fn read(plain: &[u8]) -> Frame
        requires { 8 ≤ length plain.now }
        ensures value { result ≡ frame_of plain.now }
        ensures bounded { Bounded result }
    {
        let first = octets::u16_at(plain, 0);
        let channel = Channel((first % Channel::BOUND) as u8);
        let counter = Counter(octets::u24_at(plain, 2));
        let last = octets::u16_at(plain, 6);
        Frame {
            version: (first / 16384) as u8,
            spacecraft: (first / Channel::BOUND % 256) as u8,
            channel,
            counter,
            pointer: last % Frame::POINTERS,
        }
    }
}

pub fn meaning(pointer: u16) -> Pointer
    ensures { result ≡ pointer_meaning pointer }
{
    if (pointer as usize) < Frame::ZONE {
        return Pointer::Offset(pointer);
    }
    if pointer == Frame::NO_START {
        return Pointer::NoStart;
    }
    Pointer::Refused
}

// The desk of a channel among the first n of those named.
pub fn desk_of(watched: [Channel; Channel::MOST], n: u8, channel: Channel) -> Option<usize>
    requires { n ≤ 8 }
    ensures { result ≡ desk_of (take n watched) channel }
{
    watched[..n as usize].iter().position(|w| *w == channel)
}

// A frame that is not refused: its desk, its counter and what its pointer says.
#[derive(Clone, Copy)]
pub struct Accepted {
    pub desk: usize,
    pub counter: Counter,
    pub pointer: Pointer,
}
