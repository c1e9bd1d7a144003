// A stored catalogue from standard input, printed as lines of text for people; docs/CATALOGUE.md says how.
//
// Owns the memory: the octets read, and all the text that the longest catalogue has. Promises: the program is safe and ends; the text is one equation
// over the octets (specs/Printed.antt). No contract can say that these are the input, nor that what is written is the text.
#![tactic(auto)]

ghost use Rattle.std.specs.Prelude.{◌≡◌, ◌+◌, ◌*◌, ◌≤◌, ◌<◌, length, take, drop};
ghost use Rattle.text.specs.Pieces.{Written};
ghost use Rattle.catalogue.specs.Catalogue.{images_of, channels_of, listed};
ghost use Rattle.catalogue.specs.Reading.{Lies};
ghost use Rattle.printout.specs.Printed.{both, facts_text, image_text, file_line, file_lines, channel_line, channel_lines, end_line, refused_line, printed};
ghost use Rattle.printout.specs.Left.{image_for, taken as taken_by, entry_at};

use catalogue::{ChannelEntry, Entry, Picture, Places};
use facts::Facts;
use refusals::Refusal;
use std::io::{Stdin, Stdout};

// The most octets that are read.
const CATALOGUE: usize = 32768;

// Room for the longest lines, with 20 digits for each number: a file's, a channel's, the last one.
const FILE_LINE: usize = 273;

const CHANNEL_LINE: usize = 56;

const LAST_LINE: usize = 67;

const TEXT: usize = Entry::MOST * FILE_LINE + Entry::CHANNELS * CHANNEL_LINE + LAST_LINE;

// Two words, each with its number.
fn two_numbers(v: &[u8], m: u64, w: &[u8], n: u64, out: &mut [u8], at: usize) -> usize
    requires { at + length v.now + length w.now + 42 ≤ length out.old }
    ensures { (result ≤ at + length v.now + length w.now + 42) × Written out.old at (both v.now m w.now n) out.new result }
{
    let end = text::with_number(v, m, out, at);
    text::with_number(w, n, out, end)
}

fn facts_text(i: usize, f: Facts, kind: u8, out: &mut [u8], at: usize) -> usize
    requires { at + 168 ≤ length out.old }
    ensures { (result ≤ at + 168) × Written out.old at (facts_text i f kind) out.new result }
{
    let first = two_numbers(b"file", i as u64, b" channel", f.channel.0 as u64, out, at);
    let second = two_numbers(
        b" application",
        f.application.0 as u64,
        b" counter",
        f.counter as u64,
        out,
        first,
    );
    two_numbers(b" bits", f.bits, b" type", kind as u64, out, second)
}

fn image_text(image: Option<Picture>, out: &mut [u8], at: usize) -> usize
    requires { at + 104 ≤ length out.old }
    ensures { (result ≤ at + 104) × Written out.old at (image_text image) out.new result }
{
    let Some(p) = image else {
        return at;
    };
    let size = two_numbers(b" image", p.columns as u64, b" by", p.lines as u64, out, at);
    two_numbers(
        b" segment",
        p.number as u64,
        b" of",
        p.total as u64,
        out,
        size,
    )
}

fn file_line(i: usize, e: Entry, out: &mut [u8], at: usize) -> usize
    requires { at + 273 ≤ length out.old }
    ensures { (result ≤ at + 273) × Written out.old at (file_line i e) out.new result }
{
    let first = facts_text(i, e.facts, e.kind, out, at);
    let last = image_text(e.image, out, first);
    text::line_end(out, last)
}

// The image of file i, if the first one that is left is that: j images were taken.
fn image_for(s: &[u8], at: Places, i: usize, j: usize) -> Option<Picture>
    requires { Lies s.now at × (j ≤ at.images) }
    ensures { result ≡ image_for i (drop j (images_of s.now)) }
{
    if j == at.images {
        return None;
    }
    let e = ask::image_entry(s, at.second + 2 + j * Entry::IMAGE);
    if e.index as usize != i {
        return None;
    }
    Some(e.picture)
}

// File i, if j images were taken by those in front of it.
fn entry_at(s: &[u8], at: Places, i: usize, j: usize) -> Entry
    requires { Lies s.now at × (i < at.files) × (j ≤ at.images) }
    ensures { result ≡ entry_at s.now i j }
{
    let f = ask::file_entry(s, 2 + i * Entry::FILE);
    Entry {
        facts: f.facts,
        kind: f.kind,
        image: image_for(s, at, i, j),
    }
}

// How many images a file takes.
fn taken(image: Option<Picture>) -> usize
    ensures { (result ≤ 1) × (result ≡ taken_by image) }
{
    image.is_some() as usize
}

// Files and images are gone through together, so that the cost grows as the octets.
fn file_lines(s: &[u8], at: Places, out: &mut [u8]) -> usize
    requires { Lies s.now at × (273 * at.files ≤ length out.old) }
    ensures { (result ≤ 273 * at.files) × Written out.old 0 (file_lines 0 (listed s.now)) out.new result }
{
    let mut end: usize = 0;
    let mut j: usize = 0;
    for i in 0..at.files {
        let e = entry_at(s, at, i, j);
        end = file_line(i, e, out, end);
        j += taken(e.image);
    }
    end
}

fn channel_line(e: ChannelEntry, out: &mut [u8], at: usize) -> usize
    requires { at + 56 ≤ length out.old }
    ensures { (result ≤ at + 56) × Written out.old at (channel_line e.channel.0 e.files) out.new result }
{
    let last = two_numbers(
        b"channel",
        e.channel.0 as u64,
        b" files",
        e.files as u64,
        out,
        at,
    );
    text::line_end(out, last)
}

fn channel_lines(s: &[u8], at: Places, out: &mut [u8], start: usize) -> usize
    requires { Lies s.now at × (start + 56 * at.channels ≤ length out.old) }
    ensures { (result ≤ start + 56 * at.channels) × Written out.old start (channel_lines (channels_of s.now)) out.new result }
{
    let mut end = start;
    for i in 0..at.channels {
        let e = ask::channel_entry(s, at.third + 2 + i * Entry::CHANNEL);
        end = channel_line(e, out, end);
    }
    end
}

fn end_line(at: Places, out: &mut [u8], start: usize) -> usize
    requires { start + 67 ≤ length out.old }
    ensures { (result ≤ start + 67) × Written out.old start (end_line at.files at.images at.channels) out.new result }
{
    let last = text::with_three(
        b"END",
        at.files as u64,
        at.images as u64,
        at.channels as u64,
        out,
        start,
    );
    text::line_end(out, last)
}

fn refused_line(out: &mut [u8]) -> usize
    requires { 29 ≤ length out.old }
    ensures { (result ≤ 29) × Written out.old 0 refused_line out.new result }
{
    let last = text::with_number(b"refused", Refusal::NO_CATALOGUE.0 as u64, out, 0);
    text::line_end(out, last)
}

// All that is printed of the octets read stands at the start of out, up to the place answered.
fn print(s: &[u8], out: &mut [u8]) -> usize
    requires { length out.old ≡ 283147 }
    ensures { (result ≤ 283147) × (take result out.new ≡ printed s.now) }
{
    let Some(at) = catalogue::find(s) else {
        return refused_line(out);
    };
    let files = file_lines(s, at, out);
    let channels = channel_lines(s, at, out, files);
    end_line(at, out, channels)
}

// Both lengths are asked for: a shorter buffer could cut a catalogue, or its text.
fn read(input: Stdin, mut output: Stdout, s: &mut [u8], out: &mut [u8])
    requires { (length s.old ≡ 32768) × (length out.old ≡ 283147) }
{
    let n = pipes::read_full(input, s);
    let end = print(&s[0..n], out);
    pipes::write_all(&mut output, &out[0..end]);
}

fn main(rt: HostRuntime) {
    let mut s = [0u8; CATALOGUE];
    let mut out = [0u8; TEXT];
    read(rt.stdin(), rt.stdout(), &mut s, &mut out);
}
