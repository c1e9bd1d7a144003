// The station's state: its slots, its desks and the owners of its blocks.
//
// Owns Station, Slot and Desk, passed by value. Promises: what each small function tells of a slot is what specs/Slots.antt says; when a state is
// sound (specs/Sound.antt has the paper's list, specs/Decision.antt the tests, proofs/Exactly.antt that they agree) is decided by the crate `sound`.
#![tactic(auto)]

ghost use Rattle.std.specs.Prelude.{◌≡◌, ◌&&◌};
ghost use Rattle.state.specs.Slots.{no_file, held, need_of, complete, incomplete, of_pair, head_of, all_zero_state};

use frame::{Channel, Counter};
use packet::{Application, Count, Packet};

// A file slot. It is held exactly if a packet was accepted for it; the need follows from the length, and it is complete exactly if as many
// packets were accepted as it needs blocks. No flag says what these numbers say already.
#[derive(Clone, Copy, PartialEq, Eq)]
pub struct Slot {
    pub channel: Channel,
    pub application: Application,
    pub bits: u64,
    pub count: Count,
    pub accepted: u16,
}

// "a free slot is all zero"
const NO_FILE: Slot = Slot {
    channel: Channel(0),
    application: Application(0),
    bits: 0,
    count: Count(0),
    accepted: 0,
};

// All slots free, as an array that is there: one made slot by slot splits the state in pieces, and each copy of it with them.
const NO_FILES: [Slot; Station::SLOTS] = [NO_FILE; Station::SLOTS];

impl Slot {
    // A free slot.
    pub fn none() -> Slot
        ensures { result ≡ no_file }
    {
        NO_FILE
    }

    pub fn is_held(self) -> bool
        ensures { result ≡ held self }
    {
        self.accepted != 0
    }

    pub fn need(self) -> u64
        ensures { result ≡ need_of self }
    {
        transport::need(self.bits)
    }

    pub fn is_complete(self) -> bool
        ensures { result ≡ complete self }
    {
        self.is_held() && self.accepted as u64 == self.need()
    }

    pub fn is_incomplete(self) -> bool
        ensures { result ≡ incomplete self }
    {
        self.is_held() && self.accepted as u64 != self.need()
    }

    // Whether the slot's file is of this channel and application: the application is tried first, since files of one channel are many.
    pub fn is_of(self, channel: Channel, application: Application) -> bool
        ensures { result ≡ of_pair channel application self }
    {
        self.application == application && self.channel == channel
    }

    // Whether the slot has an incomplete file of this channel and application. The pair is tried first: the need takes a division.
    pub fn is_incomplete_of(self, channel: Channel, application: Application) -> bool
        ensures { result ≡ (of_pair channel application self && incomplete self) }
    {
        self.is_of(channel, application) && self.is_incomplete()
    }
}

// What the state keeps of a desk: how many octets it holds, whether a frame was seen, and the last frame's counter.
#[derive(Clone, Copy)]
pub struct Desk {
    pub held: u16,
    pub seen: bool,
    pub counter: Counter,
}

impl Desk {
    // Room for the largest packet; one that is whole is not held.
    pub const SIZE: usize = Packet::LARGEST;

    pub const MOST: u16 = 8197;
}

// The state that every call takes and gives back.
#[derive(Clone, Copy)]
pub struct Station {
    pub spacecraft: u8,
    pub channels: u8,
    pub watched: [Channel; Channel::MOST],
    pub desks: [Desk; Channel::MOST],
    pub blocks: u16,
    pub owner: [u8; Station::MOST_BLOCKS as usize],
    pub slots: [Slot; Station::SLOTS],
}

// A state but for its files: what no packet changes.
#[derive(Clone, Copy)]
pub struct Head {
    pub spacecraft: u8,
    pub channels: u8,
    pub watched: [Channel; Channel::MOST],
    pub desks: [Desk; Channel::MOST],
    pub blocks: u16,
}

impl Station {
    pub const SLOTS: usize = 32;
    // A block's owner is 0 for none, or a slot's number and 1.
    pub const LAST_OWNER: u8 = 32;

    pub const MOST_CHANNELS: u8 = Channel::MOST as u8;

    pub const MOST_BLOCKS: u16 = 4096;

    // The state that a refused set-up gives.
    pub fn zero() -> Station
        ensures { result ≡ all_zero_state }
    {
        let desk = Desk {
            held: 0,
            seen: false,
            counter: Counter(0),
        };
        Station {
            spacecraft: 0,
            channels: 0,
            watched: [Channel(0); Channel::MOST],
            desks: [desk; Channel::MOST],
            blocks: 0,
            owner: [0; Station::MOST_BLOCKS as usize],
            slots: NO_FILES,
        }
    }

    pub fn head(self) -> Head
        ensures { result ≡ head_of self }
    {
        let watched = self.watched;
        let desks = self.desks;
        Head {
            spacecraft: self.spacecraft,
            channels: self.channels,
            watched,
            desks,
            blocks: self.blocks,
        }
    }
}
