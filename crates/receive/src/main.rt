// Frames from standard input, and what happened, line by line: F, index, answer and event count of a frame; E and the numbers of an event;
// at the end END, frames, octets left over.
//
// Owns the memory of a station: spacecraft 1, channels 0 to 3, seven blocks. Promises: the program is safe and ends; its station goes from
// frame to frame as the station's contract has it; what it prints of a frame is the text of what the station's contract says comes of it. A trailing part of a frame is counted, and no frame.
#![tactic(auto)]

ghost use Rattle.std.specs.Prelude.{◌≤◌, ◌≡◌, length};
ghost use Rattle.station.specs.Frame.{framed};
ghost use Rattle.octets.specs.Buffer.{put};
ghost use Rattle.lines.specs.Lines.{end_line};
ghost use Rattle.station.specs.Handed.{WentOn};
ghost use Rattle.receive.specs.Told.{frame_text, outcome_text};

use frame::Frame;
use state::Station;
use std::io::Stdout;

const SPACECRAFT: u8 = 1;

const CHANNELS: [u8; 4] = [0, 1, 2, 3];

// The octets of four desks, and of seven blocks.
const DESKS: usize = 32792;

const STORE: usize = 57330;

// The numbers of 300 events, and the octets of their lines with the frame's own.
const LIST: usize = 900;

const LINES: usize = 19565;

// What happened with a frame: its line, and a line for each event.
fn tell(mut output: Stdout, index: u64, answer: u8, events: usize, list: &[u16], out: &mut [u8])
    requires { (events ≤ 300) × (length list.now ≡ 900) × (length out.old ≡ 19565) }
    ensures { out.new ≡ put out.old 0 (frame_text index answer events list.now) }
{
    let letter = text::word(b"F", out, 0);
    let last = text::numbers(index, answer as u64, events as u64, out, letter);
    let head = text::line_end(out, last);
    let end = lines::events(list, events, out, head);
    pipes::write_all(&mut output, &out[0..end]);
}

// One frame, taken by the station and told. Answers the state after it.
fn receive(
    output: Stdout,
    s: Station,
    desks: &mut [u8],
    store: &mut [u8],
    list: &mut [u16],
    unit: &[u8],
    index: u64,
    out: &mut [u8],
) -> Station
    requires { (length list.old ≡ 900) × (length out.old ≡ 19565) }
    ensures went_on { WentOn (framed s desks.old store.old list.old unit.now) result desks.new store.new }
    ensures out_after { out.new ≡ put out.old 0 (outcome_text index (framed s desks.old store.old list.old unit.now)) }
{
    let f = reception::take_frame(s, desks, store, list, unit);
    tell(output, index, f.answer, f.events, list, out);
    f.station
}

// The end of the input: how many frames there were, and how many octets were left over.
fn end(mut output: Stdout, frames: u64, left: u64, out: &mut [u8])
    requires { length out.old ≡ 19565 }
    ensures { out.new ≡ put out.old 0 (end_line frames left) }
{
    let last = lines::end_line(frames, left, out, 0);
    pipes::write_all(&mut output, &out[0..last]);
}

// Nothing says that an input ends, and a proved loop has to: it stops at a number of frames that no run comes to.
fn main(rt: HostRuntime) {
    let output = rt.stdout();
    let mut desks = [0u8; DESKS];
    let mut store = [0u8; STORE];
    let mut list = [0u16; LIST];
    let mut out = [0u8; LINES];
    let mut unit = [0u8; Frame::SIZE];
    let fresh = station::set_up(SPACECRAFT, &CHANNELS, &mut desks, &store);
    let mut s = fresh.station;
    for frames in 0..u64::MAX {
        let got = pipes::read_full(rt.stdin(), &mut unit);
        if got < Frame::SIZE {
            end(output, frames, got as u64, &mut out);
            return;
        }
        s = receive(
            output, s, &mut desks, &mut store, &mut list, &unit, frames, &mut out,
        );
    }
}
