// One entry more in a catalogue, in place: how many octets it will have, and its octets written.
//
// The sections are written from the last to the first, each at its new place: nothing is overwritten that is still needed. The channel section is made
// anew from the counts. Promises: the buffer after it is an equation on the whole buffer (catalogue specs/Entering.antt). `enter`, which calls this, has
// judged everything before.
#![tactic(auto)]

ghost use Rattle.std.specs.Prelude.{◌≡◌, [], ◌∷◌, ◌++◌, ℕ, ◌+◌, ◌*◌, ◌≤◌, ◌<◌, length, take, get_or};
ghost use Rattle.octets.specs.Number.{part, in_octets};
ghost use Rattle.octets.specs.Buffer.{put};
ghost use Rattle.sections.specs.Sections.{row, rows, section};
ghost use Rattle.catalogue.specs.Catalogue.{file_widths, image_widths, channel_widths, file_row, image_row, channel_rows};
ghost use Rattle.catalogue.specs.Reading.{Ready};
ghost use Rattle.catalogue.specs.Entering.{entered};

use catalogue::{Entry, Picture, Places};

// How many channels have files.
fn spoken(counts: [u16; Entry::CHANNELS]) -> usize
    ensures { (result ≡ length (channel_rows (λ (c : ℕ). get_or counts c 0) 63 0)) × (result ≤ 63) }
{
    counts.iter().filter(|n| **n != 0).count()
}

// The entries of the channel section, from place at on.
fn write_counts(dst: &mut [u8], at: usize, counts: [u16; Entry::CHANNELS])
    requires { at + length (rows channel_widths (channel_rows (λ (c : ℕ). get_or counts c 0) 63 0)) ≤ length dst.old }
    ensures { dst.new ≡ put dst.old at (rows channel_widths (channel_rows (λ (c : ℕ). get_or counts c 0) 63 0)) }
{
    let widths = [1u8, 2];
    let mut p = at;
    for c in 0..Entry::CHANNELS {
        if counts[c] == 0 {
            continue;
        }
        let numbers = [c as u64, counts[c] as u64];
        sections::write_row(dst, p, &widths, &numbers);
        p += Entry::CHANNEL;
    }
}

// The channel section, from place at on.
fn write_channels(dst: &mut [u8], at: usize, counts: [u16; Entry::CHANNELS])
    requires { at + 2 + length (rows channel_widths (channel_rows (λ (c : ℕ). get_or counts c 0) 63 0)) ≤ length dst.old }
    ensures { dst.new ≡ put dst.old at (section channel_widths (channel_rows (λ (c : ℕ). get_or counts c 0) 63 0)) }
{
    octets::store(dst, at, 2, spoken(counts) as u64);
    write_counts(dst, at + 2, counts);
}

fn write_file(dst: &mut [u8], e: Entry)
    requires { length dst.old ≡ 14 }
    ensures { dst.new ≡ row file_widths (file_row e) }
{
    let f = e.facts;
    let channel = f.channel;
    let application = f.application;
    let widths = [1u8, 2, 2, 8, 1];
    let numbers = [
        channel.0 as u64,
        application.0 as u64,
        f.counter as u64,
        f.bits,
        e.kind as u64,
    ];
    sections::write_row(dst, 0, &widths, &numbers);
}

fn write_picture(dst: &mut [u8], index: usize, p: Picture)
    requires { length dst.old ≡ 8 }
    ensures { dst.new ≡ row image_widths (index ∷ p.columns ∷ p.lines ∷ p.number ∷ p.total ∷ []) }
{
    let widths = [2u8, 2, 2, 1, 1];
    let numbers = [
        index as u64,
        p.columns as u64,
        p.lines as u64,
        p.number as u64,
        p.total as u64,
    ];
    sections::write_row(dst, 0, &widths, &numbers);
}

// How many entries of the image section a file has.
fn shown(image: Option<Picture>) -> usize
    ensures { (result ≡ length (image_row 0 image)) × (result ≤ 1) }
{
    match image {
        None => 0,
        Some(p) => 1,
    }
}

// One entry of the image section, or none.
fn write_image(dst: &mut [u8], index: usize, image: Option<Picture>)
    requires { length dst.old ≡ 8 }
    ensures { take (length (image_row 0 image) * 8) dst.new ≡ rows image_widths (image_row index image) }
{
    match image {
        None => {}
        Some(p) => write_picture(dst, index, p),
    }
}

// How many octets the catalogue will have, whose channel section began at place third. The bound is only there so that nothing wraps.
pub fn size_with(third: usize, image: Option<Picture>, counts: [u16; Entry::CHANNELS]) -> usize
    requires { third ≤ 600000 }
    ensures { result ≡ third + 16 + length (image_row 0 image) * 8 + length (channel_rows (λ (c : ℕ). get_or counts c 0) 63 0) * 3 }
{
    third + 16 + shown(image) * Entry::IMAGE + spoken(counts) * Entry::CHANNEL
}

// The image section in its new place, with the file's entry if it has one.
fn grow_images(dst: &mut [u8], at: Places, image: Option<Picture>, more: usize)
    requires { (more ≡ length (image_row 0 image)) × (more ≤ 1) × (at.images ≤ 65535) × (at.second + 16 + at.images * 8 + more * 8 ≤ length dst.old) }
    ensures { dst.new ≡ put dst.old (at.second + 14) (in_octets 2 (at.images + more) ++ part (at.second + 2) (at.images * 8) dst.old ++ rows image_widths (image_row at.files image)) }
{
    let mut picture = [0u8; Entry::IMAGE];
    write_image(&mut picture, at.files, image);
    let end = more * Entry::IMAGE;
    sections::grow_section(
        dst,
        at.second,
        at.images,
        Entry::IMAGE,
        Entry::FILE,
        &picture[0..end],
        more,
    );
}

// The file section with one file more behind its n.
fn grow_files(dst: &mut [u8], n: usize, e: Entry)
    requires { (n < 1024) × (16 + n * 14 ≤ length dst.old) }
    ensures { dst.new ≡ put dst.old 0 (in_octets 2 (n + 1) ++ part 2 (n * 14) dst.old ++ row file_widths (file_row e)) }
{
    let mut file = [0u8; Entry::FILE];
    write_file(&mut file, e);
    sections::grow_section(dst, 0, n, Entry::FILE, 0, &file, 1);
}

// One entry more, section by section from the last to the first.
pub fn append(buffer: &mut [u8], used: usize, at: Places, e: Entry, counts: [u16; Entry::CHANNELS])
    requires { Ready buffer.old used at e counts × (length (entered (take used buffer.old) e) ≤ length buffer.old) }
    ensures { buffer.new ≡ put buffer.old 0 (entered (take used buffer.old) e) }
{
    let image = e.image;
    let more = shown(image);
    write_channels(buffer, at.third + Entry::FILE + more * Entry::IMAGE, counts);
    grow_images(buffer, at, image, more);
    grow_files(buffer, at.files, e);
}
