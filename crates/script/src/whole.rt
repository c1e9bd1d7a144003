// A script that is read whole and followed command by command. What a program owns and what its commands do to that is the program's own matter: it
// tells by `Obeys`.
ghost use Rattle.std.specs.Prelude.{◌≡◌, ◌≤◌, List, ℕ, Option, Some, length, drop};
ghost use Rattle.octets.specs.Buffer.{put};
ghost use Rattle.text.specs.Pieces.{Written};
ghost use Rattle.lines.specs.Lines.{end_line};
ghost use Rattle.script.specs.declared.Command.{Command};
ghost use Rattle.script.specs.Follow.{next_of, followed, text_left, ended};

use crate::Command;
use std::io::Write;

// What a program owns, as a value that obeys commands.
pub trait Obeys {
    // How many octets follow a command, what it does to what is owned, and what it prints.
    ghost payload_of: { Command → Option ℕ };

    ghost carried_out: { Command → List ℕ → Self → Self };

    ghost printed: { Command → List ℕ → Self → List ℕ };

    // What is true of what is owned, before and after each command.
    ghost Fits: { Self → Type 0 } = { λ _. Unit {0} };

    // The room that is given for the text of a command.
    ghost room: { ℕ };

    fn payload(x: Command) -> Option<usize>
        ensures { result ≡ payload_of x };

    // One command. Its text stands at the start of out.
    fn carry_out(&mut self, x: Command, payload: &[u8], out: &mut [u8]) -> usize
        requires { Fits self.old × (length out.old ≡ room) × (payload_of x ≡ Some (length payload.now)) }
        ensures memory_after { self.new ≡ carried_out x payload.now self.old }
        ensures fits { Fits self.new }
        ensures end_bound { (result ≤ room) × Written out.old 0 (printed x payload.now self.old) out.new result };
}

// What a run leaves beside what is owned: how many commands were carried out, and how many octets of the script were not used.
#[derive(Clone, Copy)]
pub struct Ended {
    pub commands: u64,
    pub unused: u64,
}

impl Ended {
    // The last line of a run. It stands at the start of out, up to the place answered.
    pub fn line(self, out: &mut [u8]) -> usize
        requires { 46 ≤ length out.old }
        ensures { (result ≤ 46) × Written out.old 0 (end_line self.commands self.unused) out.new result }
    {
        lines::end_line(self.commands, self.unused, out, 0)
    }
}

// What comes at place at: a command with so many octets of payload behind it, or nothing that is carried out.
#[tactic(auto, unfolding(crate::specs::Follow::next_of))]
fn fetch<P: Obeys>(script: &[u8], at: usize) -> Option<(Command, usize)>
    requires { at ≤ length script.now }
    ensures { result ≡ next_of P.payload_of (drop at script.now) }
{
    let left = script.len() - at;
    if left < Command::SIZE {
        return None;
    }
    let end = at + Command::SIZE;
    let x = Command::read(&script[at..end]);
    let k = P::payload(x)?;
    if k > left - Command::SIZE {
        return None;
    }
    Some((x, k))
}

// One command carried out, and its text printed.
fn obey<P: Obeys, W: Write>(
    owned: &mut P,
    output: &mut W,
    x: Command,
    payload: &[u8],
    out: &mut [u8],
)
    requires { P.Fits owned.old × (length out.old ≡ P.room) × (P.payload_of x ≡ Some (length payload.now)) }
    ensures memory_after { owned.new ≡ P.carried_out x payload.now owned.old }
    ensures text_after { out.new ≡ put out.old 0 (P.printed x payload.now owned.old) }
    ensures fits { P.Fits owned.new }
{
    let last = owned.carry_out(x, payload, out);
    pipes::write_all(output, &out[0..last]);
}

// The script, command by command. Each text is put at the start of out, and written from there.
pub fn follow<P: Obeys, W: Write>(
    owned: &mut P,
    output: &mut W,
    script: &[u8],
    out: &mut [u8],
) -> Ended
    requires { P.Fits owned.old × (length out.old ≡ P.room) }
    ensures memory_after { ended owned.new result ≡ followed P.payload_of P.carried_out owned.old script.now }
    ensures text_after { out.new ≡ text_left P.payload_of P.carried_out P.printed owned.old script.now out.old }
{
    let mut n: u64 = 0;
    let mut at: usize = 0;
    while at < script.len() {
        let Some((x, k)) = fetch::<P>(script, at) else {
            return Ended {
                commands: n,
                unused: (script.len() - at) as u64,
            };
        };
        let from = at + Command::SIZE;
        let to = from + k;
        obey(owned, output, x, &script[from..to], out);
        at = to;
        n += 1;
    }
    Ended {
        commands: n,
        unused: 0,
    }
}
