// A script of commands from standard input, each carried out on a hunter, and what happened, line by line; docs/STREAM.md says how.
//
// Owns the memory: a hunter of which any field can be set, and a buffer of which any first part is lent. Promises: the program is safe and ends; a
// command changes hunter and buffer as specs/Calls.antt has it, by the stream's own definitions, and its text is that of what came of it; the
// hunter, the buffer and the two numbers of the last line are those of the whole script (specs/Run.antt).
#![tactic(auto)]

mod calls;

ghost use Rattle.std.specs.Prelude.{◌≡◌, ◌≤◌, length, take};
ghost use Rattle.script.specs.Follow.{ended};
ghost use Rattle.chase.specs.Script.{payload_of};
ghost use Rattle.chase.specs.Calls.{carried_out};
ghost use Rattle.chase.specs.Printed.{printed};
ghost use Rattle.chase.specs.Run.{at_start, chased, last_line};

use script::{Command, Ended, Obeys};
use std::io::{Stdin, Stdout};
use stream::Hunter;

// The most octets that a script has, those of the buffer, and the room for the longest line.
const SCRIPT: usize = 524288;

const BUFFER: usize = 2048;

const TEXT: usize = 86;

// What the program owns.
#[derive(Drop)]
pub struct Memory {
    pub hunter: Hunter,
    pub buffer: [u8; BUFFER],
}

impl Obeys for Memory {
    ghost payload_of = { payload_of };

    ghost carried_out = { carried_out };

    ghost printed = { printed };

    ghost room = { 86 };

    fn payload(x: Command) -> Option<usize> {
        calls::payload(x)
    }

    fn carry_out(&mut self, x: Command, payload: &[u8], out: &mut [u8]) -> usize {
        let a = calls::carry_out(self.hunter, x, payload, &mut self.buffer, out);
        self.hunter = a.hunter;
        a.end
    }
}

// The script, command by command, from a hunter and a buffer that are all zero: what is owned then, and the two numbers.
fn follow(mut output: Stdout, script: &[u8], out: &mut [u8]) -> (Memory, Ended)
    requires { length out.old ≡ 86 }
    ensures { ended result.0 result.1 ≡ chased at_start script.now }
{
    let mut owned = Memory {
        hunter: Hunter {
            begun: false,
            k: 0,
            waiting: 0,
            octets: [0; 1024],
        },
        buffer: [0; BUFFER],
    };
    let r = script::follow(&mut owned, &mut output, script, out);
    (owned, r)
}

// A whole script. Its last line stands at the start of out, up to the place answered.
fn run(output: Stdout, script: &[u8], out: &mut [u8]) -> usize
    requires { length out.old ≡ 86 }
    ensures { (result ≤ 86) × (take result out.new ≡ last_line script.now) }
{
    let (_, r) = follow(output, script, out);
    r.line(out)
}

// The script, read first, and followed.
fn read(input: Stdin, mut output: Stdout, script: &mut [u8]) {
    let mut out = [0u8; TEXT];
    let n = pipes::read_full(input, script);
    let last = run(output, &script[0..n], &mut out);
    pipes::write_all(&mut output, &out[0..last]);
}

// Room for a script. It is known by its length alone: what is computed octet by octet is too long for a proof.
fn room() -> [u8; SCRIPT]
    ensures { 524288 ≡ length result }
{
    [0u8; SCRIPT]
}

fn main(rt: HostRuntime) {
    let mut script = room();
    read(rt.stdin(), rt.stdout(), &mut script);
}
