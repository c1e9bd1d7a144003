// Whole lines of text in a lent buffer: those of events, of which a list has three numbers each, those that a trial prints of a call, and the
// last line of a program. Each function puts its lines in the buffer from a place on and answers where they end.
//
// Promises: the buffer after a call is an equation on the whole buffer, and so is the end (specs/Lines.antt). The callers of this crate show
// that there is room.
#![tactic(auto)]

ghost use Rattle.std.specs.Prelude.{◌+◌, ◌*◌, ◌≤◌, ◌≡◌, [], ◌∷◌, length, get_or};
ghost use Rattle.text.specs.Pieces.{Written};
ghost use Rattle.lines.specs.Lines.{end_line, event_line, event_lines, answer_line, frame_lines, read_line, report, let_go_line, told_line};

// The line of event i.
fn event(list: &[u16], i: usize, out: &mut [u8], at: usize) -> usize
    requires { (3 * i + 3 ≤ length list.now) × (at + 65 ≤ length out.old) }
    ensures upper_bound { result ≤ at + 65 }
    ensures written { Written out.old at (event_line (get_or list.now (3 * i) 0) (get_or list.now (3 * i + 1) 0) (get_or list.now (3 * i + 2) 0)) out.new result }
{
    let kind = list[3 * i] as u64;
    let application = list[3 * i + 1] as u64;
    let slot = list[3 * i + 2] as u64;
    let end = text::with_three(b"E", kind, application, slot, out, at);
    text::line_end(out, end)
}

// The lines of the n events at the start of a list.
pub fn events(list: &[u16], n: usize, out: &mut [u8], at: usize) -> usize
    requires { (3 * n ≤ length list.now) × (at + 65 * n ≤ length out.old) }
    ensures upper_bound { result ≤ at + 65 * n }
    ensures written { Written out.old at (event_lines n list.now) out.new result }
{
    let mut end = at;
    for i in 0..n {
        end = event(list, i, out, end);
    }
    end
}

// The last line: how many pieces of the input were taken, and how many octets were left over.
pub fn end_line(pieces: u64, left: u64, out: &mut [u8], at: usize) -> usize
    requires { at + 46 ≤ length out.old }
    ensures { (result ≤ at + 46) × Written out.old at (end_line pieces left) out.new result }
{
    let first = text::with_number(b"END", pieces, out, at);
    let last = text::number(left, out, first);
    text::line_end(out, last)
}

// A letter and an answer.
pub fn answer_line(letter: u8, answer: u8, out: &mut [u8], at: usize) -> usize
    requires { at + 23 ≤ length out.old }
    ensures { (result ≤ at + 23) × Written out.old at (answer_line letter answer) out.new result }
{
    let word = [letter];
    let last = text::with_number(&word, answer as u64, out, at);
    text::line_end(out, last)
}

// The line of a frame, and the lines of its events.
pub fn frame_lines(answer: u8, n: usize, list: &[u16], out: &mut [u8], at: usize) -> usize
    requires { (3 * n ≤ length list.now) × (at + 44 + 65 * n ≤ length out.old) }
    ensures { (result ≤ at + 44 + 65 * n) × Written out.old at (frame_lines answer n list.now) out.new result }
{
    let first = text::with_number(b"F", answer as u64, out, at);
    let last = text::number(n as u64, out, first);
    let head = text::line_end(out, last);
    events(list, n, out, head)
}

// What a read says: its answer, and after 0 the octets.
pub fn read_line(answer: u8, read: &[u8], out: &mut [u8], at: usize) -> usize
    requires { at + 24 + 2 * length read.now ≤ length out.old }
    ensures { (result ≤ at + 24 + 2 * length read.now) × Written out.old at (read_line answer read.now) out.new result }
{
    let last = text::with_number(b"R", answer as u64, out, at);
    if answer != 0 {
        return text::line_end(out, last);
    }
    if read.len() == 0 {
        return text::line_end(out, last);
    }
    let space = text::word(b" ", out, last);
    let end = text::hex_octets(read, out, space);
    text::line_end(out, end)
}

// Whether a file that was let go was complete, after 0.
fn report(answer: u8, complete: bool, out: &mut [u8], at: usize) -> usize
    requires { at + 2 ≤ length out.old }
    ensures { (result ≤ at + 2) × Written out.old at (report answer complete) out.new result }
{
    if answer != 0 {
        return at;
    }
    if complete {
        return text::word(b" 1", out, at);
    }
    text::word(b" 0", out, at)
}

// What letting a file go says: its answer, and the report.
pub fn let_go_line(answer: u8, complete: bool, out: &mut [u8], at: usize) -> usize
    requires { at + 25 ≤ length out.old }
    ensures { (result ≤ at + 25) × Written out.old at (let_go_line answer complete) out.new result }
{
    let last = text::with_number(b"L", answer as u64, out, at);
    let end = report(answer, complete, out, last);
    text::line_end(out, end)
}

// What is told of a file after 0.
pub fn told_line(
    channel: u8,
    application: u16,
    counter: u16,
    bits: u64,
    out: &mut [u8],
    at: usize,
) -> usize
    requires { at + 107 ≤ length out.old }
    ensures { (result ≤ at + 107) × Written out.old at (told_line 0 (channel ∷ application ∷ counter ∷ bits ∷ [])) out.new result }
{
    let first = text::with_number(b"I", 0, out, at);
    let second = text::number(channel as u64, out, first);
    let third = text::number(application as u64, out, second);
    let fourth = text::number(counter as u64, out, third);
    let last = text::number(bits, out, fourth);
    text::line_end(out, last)
}
