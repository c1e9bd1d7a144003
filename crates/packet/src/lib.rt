// The packet: the kinds Application and Count, the six octets of its header, and when a header is bad.
//
// Promises: header fields stand at the bit positions of the paper; any octets of any number are answered: too few, bad, or good.
#![tactic(auto)]

ghost use Rattle.std.specs.Prelude.{◌≡◌, ◌≤◌, length};
ghost use Rattle.packet.specs.Kinds.{checked_application, kind_of, checked_count, next_count, count_follows};
ghost use Rattle.packet.specs.Header.{packet_of, Bounded, size_of, bad, look_of};

// An application number. It cannot stand for a channel number, nor the other way round.
#[derive(Clone, Copy, PartialEq, Eq)]
pub struct Application(pub u16);

// What an application's packets are for.
#[derive(Clone, Copy)]
pub enum Kind {
    File,
    Other,
    Fill,
}

impl Application {
    // An application number has eleven bits.
    pub const BOUND: u16 = 2048;
    // The last application that sends files, the last that is reserved, and the one that fills a zone.
    pub const LAST_FILE: u16 = 2015;

    pub const LAST_OTHER: u16 = 2046;

    pub const FILL: u16 = 2047;

    // For a number from outside. Up to now applications come in headers alone, whose eleven bits keep to the range (`Packet::read`).
    pub fn checked(n: u16) -> Option<Application>
        ensures { result ≡ checked_application n }
    {
        if n <= Application::FILL {
            return Some(Application(n));
        }
        None
    }

    pub fn kind(self) -> Kind
        ensures { result ≡ kind_of self }
    {
        if self.0 <= Application::LAST_FILE {
            return Kind::File;
        }
        if self.0 <= Application::LAST_OTHER {
            return Kind::Other;
        }
        Kind::Fill
    }
}

// A packet count: the packets of one application count modulo 16,384.
#[derive(Clone, Copy, PartialEq, Eq)]
pub struct Count(pub u16);

impl Count {
    pub const MODULUS: u16 = 16384;

    pub fn checked(n: u16) -> Option<Count>
        ensures { result ≡ checked_count n }
    {
        if n < Count::MODULUS {
            return Some(Count(n));
        }
        None
    }

    pub fn next(self) -> Count
        ensures { result ≡ next_count self }
    {
        let n = (self.0 as u32 + 1) % (Count::MODULUS as u32);
        Count(n as u16)
    }

    // Whether this count follows the last.
    pub fn follows(self, last: Count) -> bool
        ensures { result ≡ count_follows last self }
    {
        self == last.next()
    }
}

// What a packet's header says.
#[derive(Clone, Copy)]
pub struct Packet {
    pub version: u8,
    pub application: Application,
    pub flags: u8,
    pub count: Count,
    pub length: u16,
}

impl Packet {
    // The sequence flags.
    pub const MIDDLE: u8 = 0;

    pub const FIRST: u8 = 1;

    pub const LAST: u8 = 2;

    pub const WHOLE: u8 = 3;

    pub const HEADER: usize = 6;
    // The octets of a packet whose length field is 0.
    pub const LEAST: usize = 7;
    // The greatest length field, and the octets of the packet that has it.
    pub const LONGEST: u16 = 8191;

    pub const LARGEST: usize = 8198;
    // The least length field of a file's packet: one octet of data, and the check.
    pub const SHORTEST: u16 = 2;
    // The octets of the check behind a file packet's data.
    pub const CHECK: usize = 2;

    // The header in the first six octets.
    pub fn read(s: &[u8]) -> Packet
        requires { 6 ≤ length s.now }
        ensures value { result ≡ packet_of s.now }
        ensures bounded { Bounded result }
    {
        let first = octets::u16_at(s, 0);
        let second = octets::u16_at(s, 2);
        let application = Application(first % Application::BOUND);
        let count = Count(second % Count::MODULUS);
        Packet {
            version: (first / 8192) as u8,
            application,
            flags: (second / Count::MODULUS) as u8,
            count,
            length: octets::u16_at(s, 4),
        }
    }

    // The octets of the whole packet.
    pub fn size(self) -> usize
        ensures { result ≡ size_of self }
    {
        Packet::LEAST + self.length as usize
    }

    pub fn is_bad(self) -> bool
        ensures { result ≡ bad self }
    {
        if self.version != 0 {
            return true;
        }
        if self.length > Packet::LONGEST {
            return true;
        }
        let application = self.application;
        if application.0 <= Application::LAST_FILE {
            return self.length < Packet::SHORTEST;
        }
        false
    }
}

// What stands at the start of some octets.
#[derive(Clone, Copy)]
pub enum Look {
    Short,
    Bad,
    Good(Packet),
}

pub fn look_at(s: &[u8]) -> Look
    ensures { result ≡ look_of s.now }
{
    if s.len() < Packet::HEADER {
        return Look::Short;
    }
    let p = Packet::read(s);
    if p.is_bad() {
        return Look::Bad;
    }
    Look::Good(p)
}
