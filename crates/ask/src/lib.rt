// Questions to a catalogue of the night (docs/CATALOGUE.md): how many entries each section has, and an entry by its number.
//
// Each question judges what it is lent, so that none asks anything of its caller. Promises: any octets are answered, by an equation over them (catalogue
// specs/Asking.antt).
#![tactic(auto)]

ghost use Rattle.std.specs.Prelude.{◌≡◌, ◌+◌, ◌≤◌, length, ok_or};
ghost use Rattle.sections.specs.Sections.{values};
ghost use Rattle.catalogue.specs.Catalogue.{file_widths, image_widths, channel_widths};
ghost use Rattle.catalogue.specs.Reading.{found_in};
ghost use Rattle.catalogue.specs.Asking.{catalogue_read, file_entry, image_entry, channel_entry, file_asked, image_asked, channel_asked};

use catalogue::{ChannelEntry, Entry, FileEntry, ImageEntry, Picture, Places, Sizes};
use facts::Facts;
use frame::Channel;
use packet::Application;
use refusals::Refusal;

// Where the sections of a catalogue lie. Answers 0 or 31.
fn places(s: &[u8]) -> Result<Places, Refusal>
    ensures { result ≡ ok_or (found_in s.now) (record { 0 = 31 }) }
{
    catalogue::find(s).ok_or(Refusal::NO_CATALOGUE)
}

// How many files, images and channels a catalogue has. Answers 0 or 31.
pub fn read(s: &[u8]) -> Result<Sizes, Refusal>
    ensures { result ≡ catalogue_read s.now }
{
    let at = places(s)?;
    Ok(Sizes {
        files: at.files,
        images: at.images,
        channels: at.channels,
    })
}

// The entry of the file section that begins at place p.
pub fn file_entry(s: &[u8], p: usize) -> FileEntry
    requires { p + 14 ≤ length s.now }
    ensures { result ≡ file_entry (values file_widths s.now p) }
{
    FileEntry {
        facts: Facts {
            channel: Channel(s[p]),
            application: Application(octets::u16_at(s, p + 1)),
            counter: octets::u16_at(s, p + 3),
            bits: octets::u64_at(s, p + 5),
        },
        kind: s[p + 13],
    }
}

pub fn image_entry(s: &[u8], p: usize) -> ImageEntry
    requires { p + 8 ≤ length s.now }
    ensures { result ≡ image_entry (values image_widths s.now p) }
{
    ImageEntry {
        index: octets::u16_at(s, p),
        picture: Picture {
            columns: octets::u16_at(s, p + 2),
            lines: octets::u16_at(s, p + 4),
            number: s[p + 6],
            total: s[p + 7],
        },
    }
}

pub fn channel_entry(s: &[u8], p: usize) -> ChannelEntry
    requires { p + 3 ≤ length s.now }
    ensures { result ≡ channel_entry (values channel_widths s.now p) }
{
    ChannelEntry {
        channel: Channel(s[p]),
        files: octets::u16_at(s, p + 1),
    }
}

// Entry n of the file section, from 0. Answers 0, with it or with nothing, or 31.
pub fn file_at(s: &[u8], n: usize) -> Result<Option<FileEntry>, Refusal>
    ensures { result ≡ file_asked s.now n }
{
    let at = places(s)?;
    Ok((n < at.files).then(|| file_entry(s, 2 + n * Entry::FILE)))
}

// The same of the image section.
pub fn image_at(s: &[u8], n: usize) -> Result<Option<ImageEntry>, Refusal>
    ensures { result ≡ image_asked s.now n }
{
    let at = places(s)?;
    Ok((n < at.images).then(|| image_entry(s, at.second + 2 + n * Entry::IMAGE)))
}

// The same of the channel section.
pub fn channel_at(s: &[u8], n: usize) -> Result<Option<ChannelEntry>, Refusal>
    ensures { result ≡ channel_asked s.now n }
{
    let at = places(s)?;
    Ok((n < at.channels).then(|| channel_entry(s, at.third + 2 + n * Entry::CHANNEL)))
}
