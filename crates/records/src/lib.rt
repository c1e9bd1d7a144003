// The header records of a file: the primary record, and the others that follow it up to the header's length.
//
// Owns the table of record types whose length is fixed, what refusals 20 to 27 mean, and the types and laws of what is read; a header is judged
// and walked by `header`, and its fields are read by `fields`. Promises: the record at a place, whether 23 refuses it and where the next one
// begins are those of the list of the header's records (specs/Records.antt); nothing is added that could wrap, whatever lengths the octets claim.
#![tactic(auto)]

ghost use Rattle.std.specs.Prelude.{◌≡◌, ◌≤◌, ◌<◌, length};
ghost use Rattle.records.specs.Table.{fixed_types, length_of};
ghost use Rattle.records.specs.Records.{record_at, is_cut, after};

// A record: its type, its place in the header, and its length.
#[derive(Clone, Copy)]
pub struct Record {
    pub kind: u8,
    pub place: usize,
    pub length: usize,
}

impl Record {
    // What every record begins with: its type, and two octets of length.
    pub const LEAST: usize = 3;
}

#[derive(Clone, Copy)]
pub struct Primary {
    pub filetype: u8,
    pub length: u32,
    pub bits: u64,
}

impl Primary {
    pub const KIND: u8 = 0;

    pub const SIZE: usize = 16;
    // Where the header's length and the data field's bits stand.
    pub const LENGTH_AT: usize = 4;

    pub const BITS_AT: usize = 8;
}

#[derive(Clone, Copy)]
pub struct Image {
    pub bits: u8,
    pub columns: u16,
    pub lines: u16,
    pub compression: u8,
}

impl Image {
    pub const KIND: u8 = 1;

    pub const SIZE: usize = 9;
}

#[derive(Clone, Copy)]
pub struct Navigation {
    pub name: [u8; Navigation::NAME],
    pub cfac: i32,
    pub lfac: i32,
    pub coff: i32,
    pub loff: i32,
}

impl Navigation {
    pub const KIND: u8 = 2;

    pub const SIZE: usize = 51;

    pub const NAME: usize = 32;
}

#[derive(Clone, Copy)]
pub struct Time {
    pub pfield: u8,
    pub days: u16,
    pub milliseconds: u32,
}

impl Time {
    pub const KIND: u8 = 5;

    pub const SIZE: usize = 10;
}

#[derive(Clone, Copy)]
pub struct Segment {
    pub number: u8,
    pub total: u8,
    pub line: u16,
}

impl Segment {
    pub const KIND: u8 = 128;

    pub const SIZE: usize = 7;
}

// The fixed fields, or their absence.
#[derive(Clone, Copy)]
pub struct Header {
    pub primary: Primary,
    pub image: Option<Image>,
    pub navigation: Option<Navigation>,
    pub time: Option<Time>,
    pub segment: Option<Segment>,
}

// The length of the records of a type, if it is fixed.
pub fn type_length(kind: u8) -> Option<usize>
    ensures { result ≡ length_of fixed_types kind }
{
    match kind {
        Primary::KIND => Some(Primary::SIZE),
        Image::KIND => Some(Image::SIZE),
        Navigation::KIND => Some(Navigation::SIZE),
        Time::KIND => Some(Time::SIZE),
        Segment::KIND => Some(Segment::SIZE),
        _ => None,
    }
}

// The record at a place, read as far as its octets are there.
pub fn record_at(header: &[u8], at: usize) -> Record
    requires { at < length header.now }
    ensures { result ≡ record_at header.now at }
{
    let kind = header[at];
    let left = header.len() - at;
    if left < Record::LEAST {
        return Record {
            kind,
            place: at,
            length: octets::number(header, at + 1, left - 1) as usize,
        };
    }
    Record {
        kind,
        place: at,
        length: octets::u16_at(header, at + 1) as usize,
    }
}

// Whether a record of a header that ends at end is refused by 23.
pub fn is_cut(r: Record, end: usize) -> bool
    requires { r.place < end }
    ensures { result ≡ is_cut end r }
{
    let left = end - r.place;
    left < Record::LEAST || r.length < Record::LEAST || left < r.length
}

// Where the record after it begins.
pub fn next_place(r: Record, end: usize) -> usize
    requires { r.place < end }
    ensures { (result ≡ after end r) × (r.place < result) × (result ≤ end) }
{
    if is_cut(r, end) {
        return end;
    }
    r.place + r.length
}
