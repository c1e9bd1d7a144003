// What the readers of a file's header records answer, as text.
//
// Owns the answers to the questions `H` and `R` of docs/VECTORS.md. Promises: the text is an equation over what the readers' contracts say
// (specs/Readout.antt).
#![tactic(auto)]

ghost use Rattle.std.specs.Prelude.{◌+◌, ◌≤◌, ◌≡◌, ◌++◌, nat_abs, length, drop};
ghost use Rattle.octets.specs.Number.{number_at};
ghost use Rattle.text.specs.Pieces.{Written, ascii, in_hex};
ghost use Rattle.records.specs.Reader.{read_header, read_record};
ghost use Rattle.readout.specs.Readout.{signed_text, signed_pair, primary_text, image_text, navigation_text, time_text, segment_text, fields_text, header_text, record_text};

use records::{Header, Image, Navigation, Primary, Segment, Time};

// How far a number is from zero.
fn magnitude(v: i32) -> u64
    ensures { result ≡ nat_abs v }
{
    u64::from(v.unsigned_abs())
}

fn signed(v: i32, out: &mut [u8], at: usize) -> usize
    requires { at + 22 ≤ length out.old }
    ensures { (result ≤ at + 22) × Written out.old at (signed_text v) out.new result }
{
    text::signed(v < 0, magnitude(v), out, at)
}

fn signed_pair(v: i32, w: i32, out: &mut [u8], at: usize) -> usize
    requires { at + 44 ≤ length out.old }
    ensures { (result ≤ at + 44) × Written out.old at (signed_pair v w) out.new result }
{
    let second = signed(v, out, at);
    signed(w, out, second)
}

fn primary(p: Primary, out: &mut [u8], at: usize) -> usize
    requires { at + 71 ≤ length out.old }
    ensures { (result ≤ at + 71) × Written out.old at (primary_text p) out.new result }
{
    text::with_three(
        b" primary",
        p.filetype as u64,
        p.length as u64,
        p.bits,
        out,
        at,
    )
}

fn image(i: Option<Image>, out: &mut [u8], at: usize) -> usize
    requires { at + 90 ≤ length out.old }
    ensures { (result ≤ at + 90) × Written out.old at (image_text i) out.new result }
{
    let Some(x) = i else {
        return at;
    };
    let third = text::with_three(
        b" image",
        x.bits as u64,
        x.columns as u64,
        x.lines as u64,
        out,
        at,
    );
    text::number(x.compression as u64, out, third)
}

fn named(name: &[u8], out: &mut [u8], at: usize) -> usize
    requires { (at + 76 ≤ length out.old) × (length name.now ≡ 32) }
    ensures { (result ≤ at + 76) × Written out.old at (ascii " navigation " ++ in_hex name.now) out.new result }
{
    let word = text::word(b" navigation ", out, at);
    text::hex_octets(name, out, word)
}

fn navigation(n: Option<Navigation>, out: &mut [u8], at: usize) -> usize
    requires { at + 164 ≤ length out.old }
    ensures { (result ≤ at + 164) × Written out.old at (navigation_text n) out.new result }
{
    let Some(x) = n else {
        return at;
    };
    let first = named(&x.name, out, at);
    let third = signed_pair(x.cfac, x.lfac, out, first);
    signed_pair(x.coff, x.loff, out, third)
}

fn time(t: Option<Time>, out: &mut [u8], at: usize) -> usize
    requires { at + 68 ≤ length out.old }
    ensures { (result ≤ at + 68) × Written out.old at (time_text t) out.new result }
{
    let Some(x) = t else {
        return at;
    };
    text::with_three(
        b" time",
        x.pfield as u64,
        x.days as u64,
        x.milliseconds as u64,
        out,
        at,
    )
}

fn segment(s: Option<Segment>, out: &mut [u8], at: usize) -> usize
    requires { at + 71 ≤ length out.old }
    ensures { (result ≤ at + 71) × Written out.old at (segment_text s) out.new result }
{
    let Some(x) = s else {
        return at;
    };
    text::with_three(
        b" segment",
        x.number as u64,
        x.total as u64,
        x.line as u64,
        out,
        at,
    )
}

// The fixed fields of a header.
fn fields(h: Header, out: &mut [u8]) -> usize
    requires { length out.old ≡ 2051 }
    ensures { (result ≤ 2050) × Written out.old 0 (fields_text h) out.new result }
{
    let begun = text::with_number(b"H", 0, out, 0);
    let first = primary(h.primary, out, begun);
    let second = image(h.image, out, first);
    let third = navigation(h.navigation, out, second);
    let fourth = time(h.time, out, third);
    segment(h.segment, out, fourth)
}

pub fn header_answer(q: &[u8], out: &mut [u8]) -> usize
    requires { length out.old ≡ 2051 }
    ensures { (result ≤ 2050) × Written out.old 0 (header_text (read_header q.now)) out.new result }
{
    match fields::read_header(q) {
        Err(r) => text::with_number(b"H", r.0 as u64, out, 0),
        Ok(h) => fields(h, out),
    }
}

// Its number is in the first two octets.
pub fn record_answer(q: &[u8], out: &mut [u8]) -> usize
    requires { (length out.old ≡ 2051) × (2 ≤ length q.now) }
    ensures { (result ≤ 2050) × Written out.old 0 (record_text (read_record (drop 2 q.now) (number_at q.now 0 2))) out.new result }
{
    let n = octets::u16_at(q, 0) as usize;
    match header::read_record(&q[2..], n) {
        Err(refusal) => text::with_number(b"R", refusal.0 as u64, out, 0),
        Ok(r) => {
            let begun = text::with_number(b"R", 0, out, 0);
            text::numbers(r.kind as u64, r.place as u64, r.length as u64, out, begun)
        }
    }
}
