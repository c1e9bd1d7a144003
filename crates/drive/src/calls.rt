// S, F, R, L and I: a call of the station each, and the text of what it answered. H: everything shown.
ghost use Rattle.std.specs.Prelude.{◌≡◌, List, ℕ, ◌≤◌, length};
ghost use Rattle.text.specs.Pieces.{Written};
ghost use Rattle.lines.specs.Lines.{answer_line};
ghost use Rattle.script.specs.Memory.{memory};
ghost use Rattle.station.specs.Frame.{framed};
ghost use Rattle.station.specs.Files.{read_out, file_let_go};
ghost use Rattle.station.specs.Handed.{WentOn};
ghost use Rattle.drive.specs.Calls.{set_up_by, was_set_up, frame_by, took_frame, read_by, was_let_go, told_by};
ghost use Rattle.drive.specs.Printed.{frame_printed, read_printed, let_go_printed, told_printed, shown_by};

use facts::Facts;
use refusals::Refusal;
use script::{Command, Run};
use state::Station;

// Set-up of the octets lent. The state after it is what set-up gave, also after a refusal.
pub fn set_up(
    w: Run,
    x: Command,
    channels: &[u8],
    desks: &mut [u8],
    store: &[u8],
    out: &mut [u8],
) -> Run
    requires { (w.desks ≤ length desks.old) × (w.store ≤ length store.now) × (length out.old ≡ 90844) }
    ensures store_after { memory result desks.new store.now ≡ was_set_up x channels.now (memory w desks.old store.now) }
    ensures end_bound { (result.end ≤ 90844) × Written out.old 0 (answer_line 0x53 (set_up_by x channels.now (memory w desks.old store.now)).answer) out.new result.end }
{
    let n = w.desks;
    let m = w.store;
    let a = station::set_up(x.a, channels, &mut desks[0..n], &store[0..m]);
    let given = a.station;
    let mut r = w;
    r.station = given;
    r.end = lines::answer_line(b'S', a.answer, out, 0);
    r
}

// A file let go. It is lent nothing.
pub fn let_file_go(w: Run, x: Command, out: &mut [u8]) -> Run
    requires { length out.old ≡ 90844 }
    ensures by_index { (desks store : List ℕ) → memory result desks store ≡ was_let_go x (memory w desks store) }
    ensures end_bound { (result.end ≤ 90844) × Written out.old 0 (let_go_printed (file_let_go w.station x.b)) out.new result.end }
{
    let mut r = w;
    let a = files::let_file_go(r.station, x.b);
    let after = a.station;
    r.station = after;
    r.end = lines::let_go_line(a.answer, a.complete, out, 0);
    r
}

// The state after a frame, and where its text ends.
#[derive(Clone, Copy)]
pub struct Taken {
    pub station: Station,
    pub end: usize,
}

// The frame call on what is lent, and its lines.
fn frame_lent(
    s: Station,
    desks: &mut [u8],
    store: &mut [u8],
    list: &mut [u16],
    unit: &[u8],
    out: &mut [u8],
) -> Taken
    requires { length out.old ≡ 90844 }
    ensures went_on { WentOn (framed s desks.old store.old list.old unit.now) result.station desks.new store.new }
    ensures end_bound { (result.end ≤ 90844) × Written out.old 0 (frame_printed (framed s desks.old store.old list.old unit.now)) out.new result.end }
{
    let f = reception::take_frame(s, desks, store, list, unit);
    let end = lines::frame_lines(f.answer, f.events, list, out, 0);
    let after = f.station;
    Taken {
        station: after,
        end,
    }
}

// A frame, with so many event numbers lent, all zero.
pub fn take_frame(
    w: Run,
    x: Command,
    unit: &[u8],
    desks: &mut [u8],
    store: &mut [u8],
    out: &mut [u8],
) -> Run
    requires { (w.desks ≤ length desks.old) × (w.store ≤ length store.old) × (length out.old ≡ 90844) × (x.b ≤ 1200) }
    ensures store_after { memory result desks.new store.new ≡ took_frame x unit.now (memory w desks.old store.old) }
    ensures end_bound { (result.end ≤ 90844) × Written out.old 0 (frame_printed (frame_by x unit.now (memory w desks.old store.old))) out.new result.end }
{
    let n = w.desks;
    let m = w.store;
    let lent = x.b as usize;
    let mut list = [0u16; 1200];
    let mut r = w;
    let f = frame_lent(
        r.station,
        &mut desks[0..n],
        &mut store[0..m],
        &mut list[0..lent],
        unit,
        out,
    );
    let after = f.station;
    r.station = after;
    r.end = f.end;
    r
}

// The read call on what is lent, and its line.
fn read_lent(s: Station, x: Command, store: &[u8], buffer: &mut [u8], out: &mut [u8]) -> usize
    requires { (length buffer.old ≤ 16384) × (length out.old ≡ 90844) }
    ensures { (result ≤ 90844) × Written out.old 0 (read_printed (read_out s store.now x.b x.d buffer.old)) out.new result }
{
    let answer = match files::read_file(s, store, x.b, x.d, buffer) {
        Ok(()) => 0,
        Err(r) => r.0,
    };
    lines::read_line(answer, buffer, out, 0)
}

// So many octets of a file, into a buffer that is all zero before.
pub fn read_file(w: Run, x: Command, store: &[u8], out: &mut [u8]) -> Run
    requires { (w.store ≤ length store.now) × (length out.old ≡ 90844) × (x.c ≤ 16384) }
    ensures by_index { (desks store : List ℕ) → memory result desks store ≡ memory w desks store }
    ensures end_bound { (result.end ≤ 90844) × ((desks : List ℕ) → Written out.old 0 (read_printed (read_by x (memory w desks store.now))) out.new result.end) }
{
    let m = w.store;
    let n = x.c as usize;
    let mut buffer = [0u8; 16384];
    let mut r = w;
    r.end = read_lent(r.station, x, &store[0..m], &mut buffer[0..n], out);
    r
}

// The line of what is told of a file.
fn told_line(t: Result<Facts, Refusal>, out: &mut [u8]) -> usize
    requires { length out.old ≡ 90844 }
    ensures { (result ≤ 90844) × Written out.old 0 (told_printed t) out.new result }
{
    match t {
        Err(r) => lines::answer_line(b'I', r.0, out, 0),
        Ok(f) => lines::told_line(f.channel.0, f.application.0, f.counter, f.bits, out, 0),
    }
}

// What is known of a file. The call is lent the store, as a read is.
pub fn tell_file(w: Run, x: Command, store: &[u8], out: &mut [u8]) -> Run
    requires { (w.store ≤ length store.now) × (length out.old ≡ 90844) }
    ensures by_index { (desks store : List ℕ) → memory result desks store ≡ memory w desks store }
    ensures end_bound { (result.end ≤ 90844) × ((desks : List ℕ) → Written out.old 0 (told_printed (told_by x (memory w desks store.now))) out.new result.end) }
{
    let m = w.store;
    let mut r = w;
    let told = files::tell_file(r.station, &store[0..m], x.b);
    r.end = told_line(told, out);
    r
}

// Everything: of the desks and of the store what is lent.
pub fn show_lent(w: Run, desks: &[u8], store: &[u8], out: &mut [u8]) -> Run
    requires { (w.desks ≤ length desks.now) × (w.store ≤ length store.now) × (length out.old ≡ 90844) }
    ensures by_index { (desks store : List ℕ) → memory result desks store ≡ memory w desks store }
    ensures end_bound { (result.end ≤ 90844) × Written out.old 0 (shown_by (memory w desks.now store.now)) out.new result.end }
{
    let n = w.desks;
    let m = w.store;
    let mut r = w;
    r.end = show::show(r.station, &desks[0..n], &store[0..m], out);
    r
}
