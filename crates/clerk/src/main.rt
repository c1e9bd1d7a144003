// A script of commands from standard input, each carried out on a catalogue, and what happened, line by line; docs/CATALOGUE.md says how.
//
// Owns the memory: a buffer of which any first part is lent, and how many octets the catalogue in it is said to have. Promises: the program is safe
// and ends; a command changes the memory as specs/Calls.antt has it, by the catalogue's own definitions, and its text is that of what came of it
// (specs/Printed.antt); the memory and the two numbers of the last line are those of the whole script (specs/Run.antt).
#![tactic(auto)]

mod answers;
mod calls;

ghost use Rattle.std.specs.Prelude.{◌≡◌, ◌≤◌, length, take};
ghost use Rattle.script.specs.Follow.{ended};
ghost use Rattle.clerk.specs.Script.{payload_of};
ghost use Rattle.clerk.specs.Calls.{carried_out};
ghost use Rattle.clerk.specs.Printed.{printed};
ghost use Rattle.clerk.specs.Run.{from_nothing, last_line};

use script::{Command, Ended, Obeys};
use std::io::{Stdin, Stdout};

// The most octets that a script has, those of the buffer, and the room for the longest line.
const SCRIPT: usize = 524288;

pub const BUFFER: usize = 32768;

const TEXT: usize = 128;

// How many octets of the buffer are lent to a call, and how many the catalogue is said to have.
#[derive(Clone, Copy)]
pub struct Held {
    pub lent: usize,
    pub used: usize,
}

// What the program owns: the buffer, and the two numbers.
#[derive(Drop)]
pub struct Memory {
    pub buffer: [u8; BUFFER],
    pub lent: usize,
    pub used: usize,
}

impl Obeys for Memory {
    ghost payload_of = { payload_of };

    ghost carried_out = { carried_out };

    ghost printed = { printed };

    ghost Fits = { λ m. m.lent ≤ 32768 };

    ghost room = { 128 };

    fn payload(x: Command) -> Option<usize> {
        calls::payload(x)
    }

    fn carry_out(&mut self, x: Command, payload: &[u8], out: &mut [u8]) -> usize {
        let h = Held {
            lent: self.lent,
            used: self.used,
        };
        let a = calls::carry_out(h, x, payload, &mut self.buffer, out);
        self.lent = a.held.lent;
        self.used = a.held.used;
        a.end
    }
}

// The script, command by command, from a buffer that is all zero: what is owned then, and the two numbers.
fn follow(mut output: Stdout, script: &[u8], out: &mut [u8]) -> (Memory, Ended)
    requires { length out.old ≡ 128 }
    ensures { ended result.0 result.1 ≡ from_nothing script.now }
{
    let mut owned = Memory {
        buffer: [0; BUFFER],
        lent: 0,
        used: 0,
    };
    let r = script::follow(&mut owned, &mut output, script, out);
    (owned, r)
}

// A whole script. Its last line stands at the start of out, up to the place answered.
fn run(output: Stdout, script: &[u8], out: &mut [u8]) -> usize
    requires { length out.old ≡ 128 }
    ensures { (result ≤ 128) × (take result out.new ≡ last_line script.now) }
{
    let (_, r) = follow(output, script, out);
    r.line(out)
}

// The script, read first, and followed.
fn read(input: Stdin, mut output: Stdout, script: &mut [u8]) {
    let mut out = [0u8; TEXT];
    let n = pipes::read_full(input, script);
    let last = run(output, &script[0..n], &mut out);
    pipes::write_all(&mut output, &out[0..last]);
}

// Room for a script. It is known by its length alone: what is computed octet by octet is too long for a proof.
fn room() -> [u8; SCRIPT]
    ensures { 524288 ≡ length result }
{
    [0u8; SCRIPT]
}

fn main(rt: HostRuntime) {
    let mut script = room();
    read(rt.stdin(), rt.stdout(), &mut script);
}
