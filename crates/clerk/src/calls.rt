// The commands by their letters: what each does to the memory, and the numbers that it says.
ghost use Rattle.std.specs.Prelude.{◌≡◌, ◌≤◌, Some, length};
ghost use Rattle.text.specs.Pieces.{Written};
ghost use Rattle.catalogue.specs.Answers.{entered_said};
ghost use Rattle.clerk.specs.Script.{payload_of};
ghost use Rattle.clerk.specs.Calls.{memory, begins_in, facts_in, enters_in, used_after, wrote, settled, carried_out};
ghost use Rattle.clerk.specs.Printed.{Says, asked, answered, said, printed};

use crate::answers::Said;
use crate::{BUFFER, Held, answers};
use facts::Facts;
use frame::Channel;
use packet::Application;
use refusals::Refusal;
use script::Command;

// What a command leaves: the two numbers, and what it says.
#[derive(Clone, Copy)]
pub struct Done {
    pub held: Held,
    pub said: Said,
}

// The same when its text is written: the two numbers, and where the text ends.
#[derive(Clone, Copy)]
pub struct After {
    pub held: Held,
    pub end: usize,
}

// How many octets follow a command, if the run goes on with it.
#[tactic(auto, unfolding(crate::specs::Script::payload_of))]
pub fn payload(x: Command) -> Option<usize>
    ensures { result ≡ payload_of x }
{
    match x.letter {
        b'M' | b'B' | b'J' | b'F' | b'I' | b'C' | b'P' | b'H' => Some(0),
        b'W' if x.c as usize <= BUFFER => Some(x.c as usize),
        b'E' => Some((x.c % 65536) as usize),
        _ => None,
    }
}

// M, W and P. All other letters leave the memory as it is.
#[tactic(auto, unfolding(crate::specs::Script::payload_of, crate::specs::Calls::settled))]
fn set(h: Held, x: Command, payload: &[u8], buffer: &mut [u8]) -> Held
    requires { (length buffer.old ≡ 32768) × (payload_of x ≡ Some (length payload.now)) }
    ensures { memory result buffer.new ≡ settled x payload.now (memory h buffer.old) }
{
    let mut g = h;
    match x.letter {
        b'M' => {
            g.lent = octets::least(x.c as usize, BUFFER);
            g.used = x.d as usize;
        }
        b'W' => {
            octets::copy(payload, buffer, 0);
            g.used = x.c as usize;
        }
        b'P' => {
            let i = x.d as usize;
            if i < buffer.len() {
                buffer[i] = (x.b % 256) as u8;
            }
        }
        _ => {}
    }
    g
}

// What a call that writes leaves: a refusal takes nothing from the number of octets.
fn noted(h: Held, a: Result<usize, Refusal>) -> Done
    ensures lent_value { (result.held.lent ≡ h.lent) × (result.held.used ≡ used_after a h.used) }
    ensures says { Says result.said (entered_said a) }
{
    Done {
        held: Held {
            lent: h.lent,
            used: a.unwrap_or(h.used),
        },
        said: answers::entered_said(a),
    }
}

// B, which is lent all that is lent.
#[tactic(auto, unfolding(crate::specs::Calls::wrote))]
fn begin(h: Held, buffer: &mut [u8]) -> Done
    requires { h.lent ≤ length buffer.old }
    ensures buffer_after { memory result.held buffer.new ≡ wrote (begins_in (memory h buffer.old)) (memory h buffer.old) }
    ensures says { Says result.said (entered_said (begins_in (memory h buffer.old)).answer) }
{
    let a = enter::begin(&mut buffer[..h.lent]);
    noted(h, a)
}

// A file's facts, as E has them in its fields.
fn facts_in(x: Command) -> Facts
    ensures { result ≡ facts_in x }
{
    Facts {
        channel: Channel(x.a),
        application: Application(x.b),
        counter: (x.c / 65536) as u16,
        bits: x.d,
    }
}

// E, which is lent the same, and is given the number of octets as it is.
#[tactic(auto, unfolding(crate::specs::Calls::wrote))]
fn enter_file(h: Held, x: Command, file: &[u8], buffer: &mut [u8]) -> Done
    requires { h.lent ≤ length buffer.old }
    ensures buffer_after { memory result.held buffer.new ≡ wrote (enters_in x file.now (memory h buffer.old)) (memory h buffer.old) }
    ensures says { Says result.said (entered_said (enters_in x file.now (memory h buffer.old)).answer) }
{
    let a = enter::enter(&mut buffer[..h.lent], h.used, facts_in(x), file);
    noted(h, a)
}

// J, F, I and C. M, W and P say nothing.
#[tactic(auto, unfolding(crate::specs::Printed::asked))]
fn question(letter: u8, n: usize, s: &[u8]) -> Said
    ensures { Says result (asked letter n s.now) }
{
    match letter {
        b'J' => answers::read_said(ask::read(s)),
        b'F' => answers::file_said(ask::file_at(s, n)),
        b'I' => answers::image_said(ask::image_at(s, n)),
        b'C' => answers::channel_said(ask::channel_at(s, n)),
        _ => Said {
            numbers: [0; 6],
            count: 0,
        },
    }
}

// H, and the questions: these are lent the octets of the catalogue, or all that are lent if it is said to have more.
#[tactic(auto, unfolding(crate::specs::Printed::answered))]
fn answer(h: Held, x: Command, buffer: &[u8]) -> Said
    requires { h.lent ≤ length buffer.now }
    ensures { Says result (answered x (memory h buffer.now)) }
{
    if x.letter == b'H' {
        return Said {
            numbers: [
                h.lent as u64,
                h.used as u64,
                crc::crc(buffer) as u64,
                0,
                0,
                0,
            ],
            count: 3,
        };
    }
    let n = octets::least(h.used, h.lent);
    question(x.letter, x.d as usize, &buffer[..n])
}

// What one command does and says. No letter both asks and sets, so that either may come first.
#[tactic(auto, unfolding(crate::specs::Calls::carried_out, crate::specs::Printed::said))]
fn act(h: Held, x: Command, payload: &[u8], buffer: &mut [u8]) -> Done
    requires { (length buffer.old ≡ 32768) × (h.lent ≤ 32768) × (payload_of x ≡ Some (length payload.now)) }
    ensures buffer_after { memory result.held buffer.new ≡ carried_out x payload.now (memory h buffer.old) }
    ensures says { Says result.said (said x payload.now (memory h buffer.old)) }
{
    match x.letter {
        b'B' => begin(h, buffer),
        b'E' => enter_file(h, x, payload, buffer),
        _ => {
            let said = answer(h, x, buffer);
            let held = set(h, x, payload, buffer);
            Done { held, said }
        }
    }
}

// One command. Its text stands at the start of out.
#[tactic(auto, unfolding(crate::specs::Printed::printed))]
pub fn carry_out(h: Held, x: Command, payload: &[u8], buffer: &mut [u8], out: &mut [u8]) -> After
    requires { (length buffer.old ≡ 32768) × (length out.old ≡ 128) × (h.lent ≤ 32768) × (payload_of x ≡ Some (length payload.now)) }
    ensures buffer_after { memory result.held buffer.new ≡ carried_out x payload.now (memory h buffer.old) }
    ensures end_bound { (result.end ≤ 128) × Written out.old 0 (printed x payload.now (memory h buffer.old)) out.new result.end }
{
    let a = act(h, x, payload, buffer);
    let end = answers::said_line(x.letter, a.said, out);
    After { held: a.held, end }
}
