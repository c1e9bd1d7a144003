// B, N, Q and H: the two calls of the hunter and their lines, a field of it set, and the hunter shown.
ghost use Rattle.std.specs.Prelude.{◌≡◌, ◌≤◌, Some, length};
ghost use Rattle.text.specs.Pieces.{Written};
ghost use Rattle.lines.specs.Lines.{answer_line};
ghost use Rattle.stream.specs.Hunter.{begun_by};
ghost use Rattle.chase.specs.Script.{payload_of};
ghost use Rattle.chase.specs.Calls.{memory, went_hunting, poked, carried_out};
ghost use Rattle.chase.specs.Printed.{check_line, hunt_line, hunter_line, printed};

use script::Command;
use stream::Hunter;

// What a command leaves: the hunter, and where its text ends.
#[derive(Clone, Copy)]
pub struct After {
    pub hunter: Hunter,
    pub end: usize,
}

// How many octets follow a command, if the run goes on with it.
#[tactic(auto, unfolding(crate::specs::Script::payload_of))]
pub fn payload(x: Command) -> Option<usize>
    ensures { result ≡ payload_of x }
{
    match x.letter {
        b'B' | b'Q' | b'H' => Some(0),
        b'N' if x.b <= 2048 && x.c <= 8192 => Some(x.c as usize),
        _ => None,
    }
}

// A field of the hunter set.
#[tactic(auto, unfolding(crate::specs::Calls::poked))]
fn poke(h: Hunter, x: Command) -> Hunter
    ensures { result ≡ poked x h }
{
    let mut g = h;
    match x.a {
        0 => g.begun = x.d != 0,
        1 => g.k = (x.d % 256) as u8,
        2 => g.waiting = (x.d % 65536) as u16,
        3 if x.b < 1024 => g.octets[x.b as usize] = (x.d % 256) as u8,
        _ => {}
    }
    g
}

// A letter, three numbers, and the check of some octets.
fn check_line(letter: u8, a: u64, b: u64, c: u64, checked: &[u8], out: &mut [u8]) -> usize
    requires { length out.old ≡ 86 }
    ensures { (result ≤ 86) × Written out.old 0 (check_line letter a b c checked.now) out.new result }
{
    let third = text::with_three(&[letter], a, b, c, out, 0);
    let last = text::number(crc::crc(checked) as u64, out, third);
    text::line_end(out, last)
}

// Begin. The hunter after it is what begin gave, also after a refusal.
fn begin(x: Command, out: &mut [u8]) -> After
    requires { length out.old ≡ 86 }
    ensures hunter_value { result.hunter ≡ (begun_by x.a).hunter }
    ensures end_bound { (result.end ≤ 86) × Written out.old 0 (answer_line 0x42 (begun_by x.a).answer) out.new result.end }
{
    let b = stream::begin(x.a);
    let end = lines::answer_line(b'B', b.answer, out, 0);
    After {
        hunter: b.hunter,
        end,
    }
}

// Hunt, with the first octets of the buffer lent.
fn hunt(h: Hunter, x: Command, portion: &[u8], buffer: &mut [u8], out: &mut [u8]) -> After
    requires { (x.b ≤ length buffer.old) × (length out.old ≡ 86) }
    ensures buffer_after { memory result.hunter buffer.new ≡ went_hunting x portion.now (memory h buffer.old) }
    ensures end_bound { (result.end ≤ 86) × Written out.old 0 (hunt_line x portion.now (memory h buffer.old)) out.new result.end }
{
    let lent = x.b as usize;
    let r = hunter::hunt(h, portion, &mut buffer[..lent]);
    let found = u64::from(r.found);
    let end = check_line(b'N', r.answer as u64, r.taken as u64, found, buffer, out);
    After {
        hunter: r.hunter,
        end,
    }
}

// The hunter shown.
fn show(h: Hunter, out: &mut [u8]) -> After
    requires { length out.old ≡ 86 }
    ensures hunter_value { result.hunter ≡ h }
    ensures end_bound { (result.end ≤ 86) × Written out.old 0 (hunter_line h) out.new result.end }
{
    let begun = u64::from(h.begun);
    let end = check_line(b'H', begun, h.k as u64, h.waiting as u64, &h.octets, out);
    After { hunter: h, end }
}

// One command. Its text stands at the start of out.
#[tactic(auto, unfolding(crate::specs::Script::payload_of, crate::specs::Calls::carried_out, crate::specs::Calls::was_begun, crate::specs::Printed::printed))]
pub fn carry_out(h: Hunter, x: Command, portion: &[u8], buffer: &mut [u8], out: &mut [u8]) -> After
    requires { (length buffer.old ≡ 2048) × (length out.old ≡ 86) × (payload_of x ≡ Some (length portion.now)) }
    ensures buffer_after { memory result.hunter buffer.new ≡ carried_out x portion.now (memory h buffer.old) }
    ensures end_bound { (result.end ≤ 86) × Written out.old 0 (printed x portion.now (memory h buffer.old)) out.new result.end }
{
    match x.letter {
        b'B' => begin(x, out),
        b'N' => hunt(h, x, portion, buffer, out),
        b'H' => show(h, out),
        _ => After {
            hunter: poke(h, x),
            end: 0,
        },
    }
}
