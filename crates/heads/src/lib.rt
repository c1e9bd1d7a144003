// What the readers of a frame's header and of a packet's answer, as text.
//
// Owns the answers to the questions `F` and `P` of docs/VECTORS.md. Promises: the text is an equation over what the readers' contracts say
// (specs/Heads.antt).
#![tactic(auto)]

ghost use Rattle.std.specs.Prelude.{◌+◌, ◌≤◌, ◌≡◌, ◌++◌, length};
ghost use Rattle.text.specs.Pieces.{Written, spaced};
ghost use Rattle.frame.specs.Header.{pointer_meaning};
ghost use Rattle.heads.specs.Heads.{meaning_text, frame_text, kind_text, packet_text};

use frame::{Frame, Pointer};
use packet::{Kind, Look, Packet};

// The pointer and what it means.
fn pointer_answer(pointer: u16, out: &mut [u8], at: usize) -> usize
    requires { at + 45 ≤ length out.old }
    ensures { (result ≤ at + 45) × Written out.old at (spaced pointer ++ meaning_text (pointer_meaning pointer)) out.new result }
{
    let end = text::number(pointer as u64, out, at);
    match frame::meaning(pointer) {
        Pointer::Offset(offset) => text::with_number(b" at", offset as u64, out, end),
        Pointer::NoStart => text::word(b" none", out, end),
        Pointer::Refused => text::word(b" refused", out, end),
    }
}

pub fn frame_answer(f: Frame, out: &mut [u8]) -> usize
    requires { length out.old ≡ 2051 }
    ensures { (result ≤ 2050) × Written out.old 0 (frame_text f) out.new result }
{
    let third = text::with_three(
        b"F",
        f.version as u64,
        f.spacecraft as u64,
        f.channel.0 as u64,
        out,
        0,
    );
    let end = text::number(f.counter.0 as u64, out, third);
    pointer_answer(f.pointer, out, end)
}

fn kind_answer(k: Kind, out: &mut [u8], at: usize) -> usize
    requires { at + 6 ≤ length out.old }
    ensures { (result ≤ at + 6) × Written out.old at (kind_text k) out.new result }
{
    match k {
        Kind::File => text::word(b" file", out, at),
        Kind::Other => text::word(b" other", out, at),
        Kind::Fill => text::word(b" fill", out, at),
    }
}

fn good_packet_answer(p: Packet, out: &mut [u8]) -> usize
    requires { length out.old ≡ 2051 }
    ensures { (result ≤ 2050) × Written out.old 0 (packet_text (Look.Good p)) out.new result }
{
    let first = text::with_number(b"P good", p.application.0 as u64, out, 0);
    let second = kind_answer(p.application.kind(), out, first);
    text::numbers(
        p.flags as u64,
        p.count.0 as u64,
        p.size() as u64,
        out,
        second,
    )
}

pub fn packet_answer(l: Look, out: &mut [u8]) -> usize
    requires { length out.old ≡ 2051 }
    ensures { (result ≤ 2050) × Written out.old 0 (packet_text l) out.new result }
{
    match l {
        Look::Short => text::word(b"P short", out, 0),
        Look::Bad => text::word(b"P bad", out, 0),
        Look::Good(p) => good_packet_answer(p, out),
    }
}
