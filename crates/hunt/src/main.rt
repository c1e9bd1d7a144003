// A filter: raw octets from standard input, the frames found in them to standard output; docs/STREAM.md says how. At the end one line on standard
// error: END, the frames found, the octets passed over, the octets that wait.
//
// Promises: the program is safe and ends; its line is that of some stream that was hunted through by the stream's own definitions, or the refusal
// (specs/Said.antt). No contract can say that this stream is the input, nor that what is written is what stands in the buffer.
#![tactic(auto)]

ghost use Rattle.std.specs.Prelude.{◌≡◌, ◌+◌, ◌*◌, ◌≤◌, length};
ghost use Rattle.octets.specs.Buffer.{put};
ghost use Rattle.stream.specs.Feed.{feed as fed_by};
ghost use Rattle.hunt.specs.Words.{chosen_by};
ghost use Rattle.hunt.specs.Said.{refusal_line, end_line, Tells};
ghost use Rattle.hunt.specs.Tally.{Tallied, Fresh};

use frame::Frame;
use std::env::{Env, FillError};
use std::io::{Stderr, Stdin, Stdout};
use stream::Hunter;

// A k that no hunter begins with.
const NO_K: u8 = 255;

// Room for one octet more than K has, so that a longer argument is told by its length; over two it is told by 0.
const ARGUMENT: usize = 2;

// The octets of the longest line.
const LINE: usize = 67;

// What is read at once.
const PORTION: usize = 65536;

// Octets of an input that no run comes to.
const NEVER: u64 = 0x4000000000000000;

// The k that the command's words choose: so many, the program's own name among them, of which this is the first behind it.
#[tactic(auto, unfolding(crate::specs::Words::chosen_by))]
fn chosen(words: usize, first: &[u8]) -> u8
    ensures { result ≡ chosen_by words first.now }
{
    match (words, first) {
        (0 | 1, _) => 0,
        (2, [digit @ b'0'..=b'9']) => *digit - b'0',
        _ => NO_K,
    }
}

// Where the octets come from, where the frames go, and where the last line goes.
#[derive(Clone, Copy)]
pub struct Streams {
    input: Stdin,
    output: Stdout,
    errors: Stderr,
}

// What a portion gave: how many frames, and the hunter behind it.
#[derive(Clone, Copy)]
pub struct Given {
    frames: u64,
    hunter: Hunter,
}

// One portion, again with its rest until no frame is found in it. Each frame is written as it is found.
fn feed(mut output: Stdout, h: Hunter, portion: &[u8], unit: &mut [u8]) -> Given
    ensures hunter_value { result.hunter ≡ (fed_by h portion.now unit.old).hunter }
    ensures frames_value { result.frames ≡ length (fed_by h portion.now unit.old).frames }
    ensures unit_after { unit.new ≡ (fed_by h portion.now unit.old).buffer }
{
    let mut t = h;
    let mut at: usize = 0;
    let mut frames: u64 = 0;
    loop {
        let r = hunter::hunt(t, &portion[at..], unit);
        t = r.hunter;
        if !r.found {
            return Given { frames, hunter: t };
        }
        pipes::write_all(&mut output, unit);
        at += r.taken;
        frames += 1;
    }
}

// What was counted of an input: its octets, the frames found, and the octets that wait.
#[derive(Clone, Copy)]
pub struct Tally {
    read: u64,
    frames: u64,
    waiting: u16,
}

// The input, portion by portion. Nothing says that an input ends, and a proved loop has to: it stops at a number of octets that no run comes to.
fn follow(streams: Streams, h: Hunter, input: &mut [u8], unit: &mut [u8]) -> Tally
    requires { Fresh h × (length input.old ≡ 65536) × (length unit.old ≡ 1024) }
    ensures { Tallied h.k result }
{
    let mut t = h;
    let mut all = Tally {
        read: 0,
        frames: 0,
        waiting: 0,
    };
    while all.read < NEVER {
        let n = pipes::read_some(streams.input, input);
        if n == 0 {
            return all;
        }
        let g = feed(streams.output, t, &input[..n], unit);
        t = g.hunter;
        all.read += n as u64;
        all.frames += g.frames;
        all.waiting = t.waiting;
    }
    all
}

// The octets passed over: all that were read but those of frames and those that wait. No guard is needed: frames and what waits are of what was read.
fn passed_over(t: Tally) -> u64
    requires { 1024 * t.frames + t.waiting ≤ t.read }
    ensures { result + 1024 * t.frames + t.waiting ≡ t.read }
{
    t.read - t.frames * Frame::SIZE as u64 - t.waiting as u64
}

// The last line of a run.
fn end(mut errors: Stderr, frames: u64, passed: u64, waiting: u64, out: &mut [u8])
    requires { length out.old ≡ 67 }
    ensures { out.new ≡ put out.old 0 (end_line frames passed waiting) }
{
    let third = text::with_three(b"END", frames, passed, waiting, out, 0);
    let last = text::line_end(out, third);
    pipes::write_all(&mut errors, &out[0..last]);
}

// The line of a refusal.
fn refusal(mut errors: Stderr, answer: u8, out: &mut [u8])
    requires { length out.old ≡ 67 }
    ensures { out.new ≡ put out.old 0 (refusal_line answer) }
{
    let first = text::with_number(b"hunt:", answer as u64, out, 0);
    let last = text::word(b", k is 0 to 3\n", out, first);
    pipes::write_all(&mut errors, &out[0..last]);
}

// A run, from the command's words on: the input hunted through, and its line; or the line of the refusal.
fn run(
    streams: Streams,
    words: usize,
    first: &[u8],
    input: &mut [u8],
    unit: &mut [u8],
    out: &mut [u8],
)
    requires { (length input.old ≡ 65536) × (length unit.old ≡ 1024) × (length out.old ≡ 67) }
    ensures { Tells (chosen_by words first.now) out.old out.new }
{
    let k = chosen(words, first);
    let b = stream::begin(k);
    if b.answer != 0 {
        refusal(streams.errors, b.answer, out);
        return;
    }
    let t = follow(streams, b.hunter, input, unit);
    let passed = passed_over(t);
    end(streams.errors, t.frames, passed, t.waiting as u64, out);
}

// The octets of the word at a place behind the program's name; none where it is not there or longer than the buffer.
fn word(rt: HostRuntime, i: usize, octets: &mut [u8]) -> usize
    ensures { result ≤ length octets.new }
{
    rt.arg(i, octets).unwrap_or(0)
}

// Whether a word stands there, of whatever length.
fn is_there(rt: HostRuntime, i: usize) -> bool {
    let mut octets = [0u8; ARGUMENT];
    !matches!(rt.arg(i, &mut octets), Err(FillError::NotPresent))
}

// The command's words, the program's own name among them; three stands for every greater number.
fn count(rt: HostRuntime) -> usize {
    if !is_there(rt, 1) {
        return 1;
    }
    if !is_there(rt, 2) {
        return 2;
    }
    3
}

fn main(rt: HostRuntime) {
    let mut input = [0u8; PORTION];
    let mut unit = [0u8; Frame::SIZE];
    let mut out = [0u8; LINE];
    let mut first = [0u8; ARGUMENT];
    let n = word(rt, 1, &mut first);
    let streams = Streams {
        input: rt.stdin(),
        output: rt.stdout(),
        errors: rt.stderr(),
    };
    run(
        streams,
        count(rt),
        &first[..n],
        &mut input,
        &mut unit,
        &mut out,
    );
}
