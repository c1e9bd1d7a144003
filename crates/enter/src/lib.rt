// One file more in a catalogue, in place, and an empty one begun (docs/CATALOGUE.md).
//
// Everything is judged before the first octet is written (`grow` writes), so that a refused call changes nothing. Promises: each call is one equation
// between its answer with all that is in the buffer at its end, and a definition of what came in (catalogue specs/Entering.antt).
#![tactic(auto)]

ghost use Rattle.std.specs.Prelude.{◌≡◌, true, [], ◌∷◌, ◌++◌, map, ◌+◌, ◌*◌, ◌≤◌, ◌<◌, length, drop, replicate};
ghost use Rattle.octets.specs.Each.{each};
ghost use Rattle.sections.specs.Sections.{entries};
ghost use Rattle.catalogue.specs.Catalogue.{file_widths, file_row, channel_of, good_file};
ghost use Rattle.catalogue.specs.Reading.{tallied};
ghost use Rattle.catalogue.specs.Entering.{image_facts, gives, entry_entered, file_entered, begun};
ghost use Rattle.enter.specs.Contract.{entry_by, Stands, Settled};

use catalogue::{Entry, Picture, Places};
use facts::Facts;
use frame::Channel;
use packet::Application;
use records::{Header, Image, Segment};
use refusals::Refusal;

// The counts of the channels of n good files from place 2 on, and of one file more.
fn counts_with(s: &[u8], n: usize, channel: u8) -> [u16; Entry::CHANNELS]
    requires { (2 + n * 14 ≤ length s.now) × (n ≤ 1024) × (each good_file (entries file_widths n (drop 2 s.now)) ≡ true) × (channel < 63) }
    ensures { result ≡ tallied (replicate 63 0) (map channel_of (entries file_widths n (drop 2 s.now)) ++ (channel ∷ [])) }
{
    let mut counts = catalogue::tally(s, 2, n);
    let c = channel as usize;
    counts[c] += 1;
    counts
}

// Whether a catalogue can have these facts.
fn good_facts(e: Entry) -> bool
    ensures { result ≡ good_file (file_row e) }
{
    let f = e.facts;
    f.channel.0 <= Channel::LAST && f.application.0 <= Application::LAST_FILE && f.bits > 0
}

// Refusals 30 and 31.
fn settle(b: &[u8], used: usize, e: Entry) -> Result<Places, Refusal>
    ensures { Settled b.now used e result }
{
    if used > b.len() {
        return Err(Refusal::NO_CATALOGUE);
    }
    let at = catalogue::find(&b[..used]).ok_or(Refusal::NO_CATALOGUE)?;
    if at.files == Entry::MOST {
        return Err(Refusal::FULL);
    }
    if !good_facts(e) {
        return Err(Refusal::NO_CATALOGUE);
    }
    Ok(at)
}

// One entry more where neither 30 nor 31 applies.
fn enter_at(buffer: &mut [u8], used: usize, at: Places, e: Entry) -> Result<usize, Refusal>
    requires { Stands buffer.old used at × (at.files < 1024) × (good_file (file_row e) ≡ true) }
    ensures { gives result buffer.new ≡ entry_entered buffer.old used e }
{
    let counts = counts_with(&buffer[..used], at.files, e.facts.channel.0);
    let size = grow::size_with(at.third, e.image, counts);
    if buffer.len() < size {
        return Err(Refusal::NO_ROOM);
    }
    grow::append(buffer, used, at, e, counts);
    Ok(size)
}

// One entry more in a catalogue of used octets at the front of a lent buffer.
fn enter_entry(buffer: &mut [u8], used: usize, e: Entry) -> Result<usize, Refusal>
    ensures { gives result buffer.new ≡ entry_entered buffer.old used e }
{
    let at = settle(buffer, used, e)?;
    enter_at(buffer, used, at, e)
}

fn image_facts(image: Option<Image>, segment: Option<Segment>) -> Option<Picture>
    ensures { result ≡ image_facts image segment }
{
    let i = image?;
    let (number, total) = match segment {
        None => (0, 0),
        Some(s) => (s.number, s.total),
    };
    Some(Picture {
        columns: i.columns,
        lines: i.lines,
        number,
        total,
    })
}

fn entry_for(f: Facts, h: Header) -> Entry
    ensures { result ≡ entry_by f h }
{
    Entry {
        facts: f,
        kind: h.primary.filetype,
        image: image_facts(h.image, h.segment),
    }
}

// Enters a complete file in the catalogue of used octets at the front of a lent buffer: its facts, and its octets for its header. Answers 0 with the
// octets that the catalogue has now, or 20 to 26, 30, 31, 34.
pub fn enter(buffer: &mut [u8], used: usize, f: Facts, file: &[u8]) -> Result<usize, Refusal>
    ensures { gives result buffer.new ≡ file_entered buffer.old used f file.now }
{
    let h = fields::read_header(file)?;
    enter_entry(buffer, used, entry_for(f, h))
}

// An empty catalogue at the front of a lent buffer. Answers 0 with its six octets, or 34.
pub fn begin(buffer: &mut [u8]) -> Result<usize, Refusal>
    ensures { gives result buffer.new ≡ begun buffer.old }
{
    if buffer.len() < 6 {
        return Err(Refusal::NO_ROOM);
    }
    octets::blank(buffer, 0, 6);
    Ok(6)
}
