// The questions, each put to its leaf, and the answers: each function puts the text of an answer at the start of a buffer and says where it
// ends. A question whose octets are not of the number that its letter asks is none.
ghost use Rattle.std.specs.Prelude.{◌+◌, ◌*◌, ◌≤◌, ◌<◌, ◌≡◌, length};
ghost use Rattle.octets.specs.Number.{number_at};
ghost use Rattle.text.specs.Pieces.{Written, in_hex};
ghost use Rattle.frame.specs.Header.{frame_of};
ghost use Rattle.packet.specs.Header.{look_of};
ghost use Rattle.heads.specs.Heads.{frame_text, packet_text};
ghost use Rattle.vectors.specs.Answers.{no_question, of_octets, sequence, noise_text, crc_text, length_text, fit_text, shape_text, counter_text, numbered_text, answer_to, answer_of};

use crate::digits;
use frame::{Counter, Frame};
use packet::Count;

// What is printed for a line that is no question.
fn refusal(out: &mut [u8]) -> usize
    requires { length out.old ≡ 2051 }
    ensures { (result ≤ 2050) × Written out.old 0 no_question out.new result }
{
    text::word(b"?", out, 0)
}

// The octets of the sequence from place from on, so many.
fn noise_octets(from: usize, number: usize, out: &mut [u8], at: usize) -> usize
    requires { (from < 65536) × (number ≤ 1024) × (at + 2 * number ≤ length out.old) }
    ensures { (result ≡ at + 2 * number) × Written out.old at (in_hex (sequence from number)) out.new result }
{
    let mut end = at;
    for i in 0..number {
        end = text::hex(noise::noise_at(from + i) as u64, 2, out, end);
    }
    end
}

fn noise_answer(q: &[u8], out: &mut [u8]) -> usize
    requires { length out.old ≡ 2051 }
    ensures { (result ≤ 2050) × Written out.old 0 (of_octets 4 q.now (noise_text (number_at q.now 0 2) (number_at q.now 2 2))) out.new result }
{
    if q.len() != 4 {
        return refusal(out);
    }
    let from = octets::u16_at(q, 0) as usize;
    let number = octets::u16_at(q, 2) as usize;
    if number > 1024 {
        return refusal(out);
    }
    if number == 0 {
        return text::word(b"N", out, 0);
    }
    let begun = text::word(b"N ", out, 0);
    noise_octets(from, number, out, begun)
}

fn crc_answer(q: &[u8], out: &mut [u8]) -> usize
    requires { length out.old ≡ 2051 }
    ensures { (result ≤ 2050) × Written out.old 0 (crc_text q.now) out.new result }
{
    let letter = text::word(b"C ", out, 0);
    text::hex(crc::crc(q) as u64, 4, out, letter)
}

fn frame_answer(q: &[u8], out: &mut [u8]) -> usize
    requires { length out.old ≡ 2051 }
    ensures { (result ≤ 2050) × Written out.old 0 (of_octets 8 q.now (frame_text (frame_of q.now))) out.new result }
{
    if q.len() != 8 {
        return refusal(out);
    }
    heads::frame_answer(Frame::read(q), out)
}

fn packet_answer(q: &[u8], out: &mut [u8]) -> usize
    requires { length out.old ≡ 2051 }
    ensures { (result ≤ 2050) × Written out.old 0 (packet_text (look_of q.now)) out.new result }
{
    heads::packet_answer(packet::look_at(q), out)
}

fn length_answer(q: &[u8], out: &mut [u8]) -> usize
    requires { length out.old ≡ 2051 }
    ensures { (result ≤ 2050) × Written out.old 0 (of_octets 8 q.now (length_text (number_at q.now 0 8))) out.new result }
{
    if q.len() != 8 {
        return refusal(out);
    }
    let bits = octets::u64_at(q, 0);
    if !transport::good_length(bits) {
        return text::word(b"L bad", out, 0);
    }
    let second = text::with_number(b"L", transport::need(bits), out, 0);
    text::number(transport::rest(bits), out, second)
}

// Whether a packet has the right shape, by its counts and the rest of the question.
fn fit_answer(q: &[u8], last: Count, count: Count, out: &mut [u8]) -> usize
    requires { (length q.now ≡ 17) × (length out.old ≡ 2051) }
    ensures { (result ≤ 2050) × Written out.old 0 (fit_text (number_at q.now 0 1) (number_at q.now 1 2) (number_at q.now 3 8) (number_at q.now 11 2) last count) out.new result }
{
    let bits = octets::u64_at(q, 3);
    if !transport::good_length(bits) {
        return text::word(b"S bad", out, 0);
    }
    let size = octets::u16_at(q, 1) as usize;
    let accepted = octets::u16_at(q, 11);
    let right = transport::fits(q[0], size, bits, accepted, last, count);
    text::with_number(b"S", right as u64, out, 0)
}

fn shape_answer(q: &[u8], out: &mut [u8]) -> usize
    requires { length out.old ≡ 2051 }
    ensures { (result ≤ 2050) × Written out.old 0 (of_octets 17 q.now (shape_text q.now)) out.new result }
{
    if q.len() != 17 {
        return refusal(out);
    }
    if q[0] > 3 {
        return refusal(out);
    }
    let Some(last) = Count::checked(octets::u16_at(q, 13)) else {
        return refusal(out);
    };
    let Some(count) = Count::checked(octets::u16_at(q, 15)) else {
        return refusal(out);
    };
    fit_answer(q, last, count, out)
}

fn counter_answer(q: &[u8], out: &mut [u8]) -> usize
    requires { length out.old ≡ 2051 }
    ensures { (result ≤ 2050) × Written out.old 0 (of_octets 6 q.now (counter_text (number_at q.now 0 3) (number_at q.now 3 3))) out.new result }
{
    if q.len() != 6 {
        return refusal(out);
    }
    let Some(last) = Counter::checked(octets::u24_at(q, 0)) else {
        return refusal(out);
    };
    let Some(next) = Counter::checked(octets::u24_at(q, 3)) else {
        return refusal(out);
    };
    text::with_number(b"W", next.follows(last) as u64, out, 0)
}

// A record of a file by its number, which stands in front of the file.
fn numbered_answer(q: &[u8], out: &mut [u8]) -> usize
    requires { length out.old ≡ 2051 }
    ensures { (result ≤ 2050) × Written out.old 0 (numbered_text q.now) out.new result }
{
    if q.len() < 2 {
        return refusal(out);
    }
    readout::record_answer(q, out)
}

fn answer_to(letter: u8, q: &[u8], out: &mut [u8]) -> usize
    requires { length out.old ≡ 2051 }
    ensures { (result ≤ 2050) × Written out.old 0 (answer_to letter q.now) out.new result }
{
    match letter {
        b'N' => noise_answer(q, out),
        b'C' => crc_answer(q, out),
        b'F' => frame_answer(q, out),
        b'P' => packet_answer(q, out),
        b'L' => length_answer(q, out),
        b'S' => shape_answer(q, out),
        b'W' => counter_answer(q, out),
        b'H' => readout::header_answer(q, out),
        b'R' => numbered_answer(q, out),
        _ => refusal(out),
    }
}

// The answer to a line of so many octets, of which the first 2,050 are lent.
pub fn answer(line: &[u8], held: usize, out: &mut [u8]) -> usize
    requires { (length line.now ≡ 2050) × (1 ≤ held) × (length out.old ≡ 2051) }
    ensures { (result ≤ 2050) × Written out.old 0 (answer_of line.now held) out.new result }
{
    if held > line.len() {
        return refusal(out);
    }
    let mut asked = [0u8; 1024];
    match digits::question(&line[..held], &mut asked) {
        Some(n) => answer_to(line[0], &asked[..n], out),
        None => refusal(out),
    }
}
