// Everything of a station as lines of text: the checks of the octets lent, the slots and the channels. It asks nothing of the state.
//
// Promises: the text that stands in the lent buffer is an equation on the whole buffer, each line in its place (specs/Shown.antt).
#![tactic(auto)]

ghost use Rattle.std.specs.Prelude.{◌≡◌, ◌+◌, ◌*◌, ◌≤◌, ◌<◌, length, take};
ghost use Rattle.text.specs.Pieces.{Written};
ghost use Rattle.state.specs.Blocks.{numbers_of};
ghost use Rattle.show.specs.Shown.{head_line, spaced_all, all_fields_zero, slot_line, slot_lines, channel_line, channel_lines, shown};

use frame::Channel;
use state::{Desk, Slot, Station};

fn head_line(desks: &[u8], store: &[u8], out: &mut [u8]) -> usize
    requires { 44 ≤ length out.old }
    ensures { (result ≤ 44) × Written out.old 0 (head_line desks.now store.now) out.new result }
{
    let letter = text::word(b"H", out, 0);
    let second = text::number(crc::crc(desks) as u64, out, letter);
    let last = text::number(crc::crc(store) as u64, out, second);
    text::line_end(out, last)
}

// The numbers of the blocks that a table gives to an owner, rising.
fn block_numbers(owner: u8, table: &[u8], out: &mut [u8], at: usize) -> usize
    requires { at + 21 * length (numbers_of owner 0 table.now) ≤ length out.old }
    ensures { (result ≤ at + 21 * length (numbers_of owner 0 table.now)) × Written out.old at (spaced_all (numbers_of owner 0 table.now)) out.new result }
{
    let mut end = at;
    for (i, o) in table.iter().enumerate() {
        if *o == owner {
            end = text::number(i as u64, out, end);
        }
    }
    end
}

fn is_all_zero(x: Slot) -> bool
    ensures { result ≡ all_fields_zero x }
{
    x == Slot::none()
}

// The line of slot k.
fn slot_line(k: usize, x: Slot, table: &[u8], out: &mut [u8], at: usize) -> usize
    requires { (k < 32) × (at + 128 + 21 * length (numbers_of (k + 1) 0 table.now) ≤ length out.old) }
    ensures { (result ≤ at + 128 + 21 * length (numbers_of (k + 1) 0 table.now)) × Written out.old at (slot_line k x table.now) out.new result }
{
    let letter = text::word(b"T", out, at);
    let third = text::numbers(
        k as u64,
        x.channel.0 as u64,
        x.application.0 as u64,
        out,
        letter,
    );
    let sixth = text::numbers(x.bits, x.count.0 as u64, x.accepted as u64, out, third);
    let last = block_numbers(k as u8 + 1, table, out, sixth);
    text::line_end(out, last)
}

// The lines of the slots. A block has one owner, so all of them together have no more block numbers than the table has entries.
fn slot_lines(slots: [Slot; 32], table: &[u8], out: &mut [u8], at: usize) -> usize
    requires { at + 4096 + 21 * length table.now ≤ length out.old }
    ensures { (result ≤ at + 4096 + 21 * length table.now) × Written out.old at (slot_lines 0 slots table.now) out.new result }
{
    let mut end = at;
    for k in 0..Station::SLOTS {
        let x = slots[k];
        if !is_all_zero(x) {
            end = slot_line(k, x, table, out, end);
        }
    }
    end
}

fn channel_line(channel: u8, d: Desk, out: &mut [u8], at: usize) -> usize
    requires { at + 86 ≤ length out.old }
    ensures { (result ≤ at + 86) × Written out.old at (channel_line channel d) out.new result }
{
    let seen = u64::from(d.seen);
    let letter = text::word(b"K", out, at);
    let third = text::numbers(channel as u64, d.held as u64, seen, out, letter);
    let last = text::number(d.counter.0 as u64, out, third);
    text::line_end(out, last)
}

// The lines of the first n channels.
fn channel_lines(
    n: usize,
    watched: [Channel; 8],
    desks: [Desk; 8],
    out: &mut [u8],
    at: usize,
) -> usize
    requires { (n ≤ 8) × (at + 688 ≤ length out.old) }
    ensures { (result ≤ at + 688) × Written out.old at (channel_lines (take n watched) desks) out.new result }
{
    let mut end = at;
    for i in 0..n {
        end = channel_line(watched[i].0, desks[i], out, end);
    }
    end
}

// The whole text: the line of the checks, 32 lines of slots with 4,096 block numbers between them at most, and 8 lines of channels.
pub fn show(s: Station, desks: &[u8], store: &[u8], out: &mut [u8]) -> usize
    requires { 90844 ≤ length out.old }
    ensures { (result ≤ 90844) × Written out.old 0 (shown s desks.now store.now) out.new result }
{
    let head = head_line(desks, store, out);
    let owner = s.owner;
    let slots = s.slots;
    let blocks = octets::least(s.blocks as usize, Station::MOST_BLOCKS as usize);
    let last = slot_lines(slots, &owner[0..blocks], out, head);
    let watched = s.watched;
    let positions = s.desks;
    let channels = octets::least(s.channels as usize, Station::MOST_CHANNELS as usize);
    channel_lines(channels, watched, positions, out, last)
}
