// The catalogue of the night: what a harbour keeps beside the files (docs/CATALOGUE.md).
//
// The stored form is the only form: octets in a lent buffer, and their number. Owns what a catalogue is and says (specs/Catalogue.antt), refusals 30,
// 31 and 34, and the types of what is handed in and out; `ask` answers questions to a catalogue, `enter` enters files. Promises: the sections of any
// octets are found exactly if they are what is written for some list of files (specs/Promises.antt).
#![tactic(auto)]

ghost use Rattle.std.specs.Prelude.{◌≡◌, true, map, ℕ, ◌+◌, ◌*◌, ◌≤◌, length, drop, get_or, replicate};
ghost use Rattle.octets.specs.Each.{each};
ghost use Rattle.sections.specs.Sections.{entries, whole};
ghost use Rattle.catalogue.specs.Catalogue.{file_widths, image_widths, channel_widths, widths, channel_of, good_file, rising, same_rows, channel_rows, accepts};
ghost use Rattle.catalogue.specs.Reading.{tallied, places_of, found_in, Lies};

use facts::Facts;
use frame::Channel;
use packet::Application;

// What an image structure record and a segment record say of a file.
#[derive(Clone, Copy)]
pub struct Picture {
    pub columns: u16,
    pub lines: u16,
    pub number: u8,
    pub total: u8,
}

// A file of the list: what is known of it, the file type, and what its header says of its image.
#[derive(Clone, Copy)]
pub struct Entry {
    pub facts: Facts,
    pub kind: u8,
    pub image: Option<Picture>,
}

impl Entry {
    // So many files at most.
    pub const MOST: usize = 1024;
    // The octets of an entry of each section.
    pub const FILE: usize = 14;

    pub const IMAGE: usize = 8;

    pub const CHANNEL: usize = 3;
    // As many channels can have files.
    pub const CHANNELS: usize = 63;
}

// How many entries each section has.
#[derive(Clone, Copy)]
pub struct Sizes {
    pub files: usize,
    pub images: usize,
    pub channels: usize,
}

// An entry of each section.
#[derive(Clone, Copy)]
pub struct FileEntry {
    pub facts: Facts,
    pub kind: u8,
}

#[derive(Clone, Copy)]
pub struct ImageEntry {
    pub index: u16,
    pub picture: Picture,
}

#[derive(Clone, Copy)]
pub struct ChannelEntry {
    pub channel: Channel,
    pub files: u16,
}

// Where the sections of a catalogue lie, and how many entries each has.
#[derive(Clone, Copy)]
pub struct Places {
    pub files: usize,
    pub second: usize,
    pub images: usize,
    pub third: usize,
    pub channels: usize,
}

// Whether all of n files from place at on have a channel up to 62, an application up to 2015 and L at least 1.
fn good_files(s: &[u8], at: usize, n: usize) -> bool
    requires { at + n * 14 ≤ length s.now }
    ensures { result ≡ each good_file (entries file_widths n (drop at s.now)) }
{
    for i in 0..n {
        let p = at + i * Entry::FILE;
        if s[p] > Channel::LAST {
            return false;
        }
        if octets::u16_at(s, p + 1) > Application::LAST_FILE {
            return false;
        }
        if octets::u64_at(s, p + 5) == 0 {
            return false;
        }
    }
    true
}

// Whether the indexes of m images from place at on rise and are below n.
fn rising_images(s: &[u8], at: usize, m: usize, n: usize) -> bool
    requires { at + m * 8 ≤ length s.now }
    ensures { result ≡ rising 0 n (entries image_widths m (drop at s.now)) }
{
    let mut least: usize = 0;
    for i in 0..m {
        let index = octets::u16_at(s, at + i * Entry::IMAGE) as usize;
        if index < least {
            return false;
        }
        if index >= n {
            return false;
        }
        least = index + 1;
    }
    true
}

// How many files each channel has, of n good files from place at on.
pub fn tally(s: &[u8], at: usize, n: usize) -> [u16; Entry::CHANNELS]
    requires { (at + n * 14 ≤ length s.now) × (n ≤ 1024) × (each good_file (entries file_widths n (drop at s.now)) ≡ true) }
    ensures { result ≡ tallied (replicate 63 0) (map channel_of (entries file_widths n (drop at s.now))) }
{
    let mut counts = [0u16; Entry::CHANNELS];
    for i in 0..n {
        let c = s[at + i * Entry::FILE] as usize;
        counts[c] += 1;
    }
    counts
}

// Whether k channels from place at on are those that have files, rising, each with its count.
fn true_channels(s: &[u8], at: usize, k: usize, counts: [u16; Entry::CHANNELS]) -> bool
    requires { at + k * 3 ≤ length s.now }
    ensures { result ≡ same_rows (entries channel_widths k (drop at s.now)) (channel_rows (λ (c : ℕ). get_or counts c 0) 63 0) }
{
    let mut j: usize = 0;
    for c in 0..Entry::CHANNELS {
        if counts[c] == 0 {
            continue;
        }
        if j == k {
            return false;
        }
        let p = at + j * Entry::CHANNEL;
        if s[p] as usize != c {
            return false;
        }
        if octets::u16_at(s, p + 1) != counts[c] {
            return false;
        }
        j += 1;
    }
    j == k
}

// Where the sections of octets that are three sections lie.
fn find_places(s: &[u8]) -> Places
    requires { whole widths s.now ≡ true }
    ensures { (result ≡ places_of s.now) × Lies s.now result }
{
    let files = octets::u16_at(s, 0) as usize;
    let second = 2 + files * Entry::FILE;
    let images = octets::u16_at(s, second) as usize;
    let third = second + (2 + images * Entry::IMAGE);
    let channels = octets::u16_at(s, third) as usize;
    Places {
        files,
        second,
        images,
        third,
        channels,
    }
}

// Whether the sections at these places are those of a catalogue.
fn good_sections(s: &[u8], at: Places) -> bool
    requires { (whole widths s.now ≡ true) × Lies s.now at }
    ensures { result ≡ accepts s.now }
{
    if at.files > Entry::MOST {
        return false;
    }
    if !good_files(s, 2, at.files) {
        return false;
    }
    if !rising_images(s, at.second + 2, at.images, at.files) {
        return false;
    }
    let counts = tally(s, 2, at.files);
    true_channels(s, at.third + 2, at.channels, counts)
}

// Where the sections of a catalogue lie, or that some octets are none.
pub fn find(s: &[u8]) -> Option<Places>
    ensures { result ≡ found_in s.now }
{
    let sizes = [14u8, 8, 3];
    if !sections::is_sections(s, 0, &sizes) {
        return None;
    }
    let at = find_places(s);
    if !good_sections(s, at) {
        return None;
    }
    Some(at)
}
