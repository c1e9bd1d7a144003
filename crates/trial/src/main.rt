// A script of commands from standard input, each carried out on a station, and what happened, line by line; docs/TRIAL.md says how.
//
// Owns the memory: a desk buffer, a store buffer and a state, of which any octet and any field can be set. Promises: the program is safe and
// ends; each command changes state, desks and store as the crate `drive` has it, by the station's own definitions.
#![tactic(auto)]

ghost use Rattle.std.specs.Prelude.{◌≡◌, ◌≤◌, Some, length, take};
ghost use Rattle.octets.specs.Buffer.{put};
ghost use Rattle.lines.specs.Lines.{end_line};
ghost use Rattle.script.specs.Script.{payload_of};
ghost use Rattle.script.specs.Memory.{memory};
ghost use Rattle.drive.specs.Calls.{carried_out};
ghost use Rattle.trial.specs.Fetch.{Fetches};

use script::{Command, Run};
use state::Station;
use std::io::{Stdin, Stdout};

// The octets of nine desks, and of sixty-five blocks and one more.
const DESKS: usize = 73782;

const STORE: usize = 532351;

// The most octets that follow a command, and the room for the longest text of one, that of H.
const PAYLOAD: usize = 2048;

const TEXT: usize = 90844;

// What is read at once of what nobody asks for.
const PORTION: usize = 65536;

// Octets of an input that no run comes to.
const NEVER: u64 = 0x4000000000000000;

// How many octets the rest of the input has: it is read to its end.
fn rest(input: Stdin) -> u64
    ensures { result ≤ 0x4000000000010000 }
{
    let mut came = [0u8; PORTION];
    let mut n: u64 = 0;
    while n < NEVER {
        let k = pipes::read_some(input, &mut came);
        if k == 0 {
            return n;
        }
        n += k as u64;
    }
    n
}

// What comes next of the script: a command whose payload is so many octets, at the start of a buffer; or how many octets of the script are not
// used, for the run ends with them.
#[derive(Clone, Copy)]
pub enum Fetched {
    Octets(Command, usize),
    Unused(u64),
}

fn fetch(input: Stdin, payload: &mut [u8]) -> Fetched
    requires { length payload.old ≡ 2048 }
    ensures { Fetches result }
{
    let mut head = [0u8; Command::SIZE];
    let got = pipes::read_full(input, &mut head);
    if got < Command::SIZE {
        return Fetched::Unused(got as u64);
    }
    let x = Command::read(&head);
    let Some(k) = x.payload() else {
        return Fetched::Unused(16 + rest(input));
    };
    let came = pipes::read_full(input, &mut payload[..k]);
    if came < k {
        return Fetched::Unused(16 + came as u64);
    }
    Fetched::Octets(x, k)
}

// One command carried out, whose payload is the first k octets of a buffer, and its text printed.
fn obey(
    mut output: Stdout,
    w: Run,
    x: Command,
    payload: &[u8],
    k: usize,
    desks: &mut [u8],
    store: &mut [u8],
    out: &mut [u8],
) -> Run
    requires desks_in_bounds { (w.desks ≤ length desks.old) × (w.store ≤ length store.old) × (length out.old ≡ 90844) }
    requires x_value { (payload_of x ≡ Some k) × (k ≤ length payload.now) }
    ensures store_after { memory result desks.new store.new ≡ carried_out x (take k payload.now) (memory w desks.old store.old) }
    ensures desks_in_bounds_2 { (result.desks ≤ length desks.old) × (result.store ≤ length store.old) }
{
    let r = drive::carry_out(w, x, &payload[..k], desks, store, out);
    pipes::write_all(&mut output, &out[..r.end]);
    r
}

// The last line: how many commands were carried out, and how many octets of the script were not used.
fn end(mut output: Stdout, n: u64, unused: u64, out: &mut [u8])
    requires { length out.old ≡ 90844 }
    ensures { out.new ≡ put out.old 0 (end_line n unused) }
{
    let last = lines::end_line(n, unused, out, 0);
    pipes::write_all(&mut output, &out[0..last]);
}

// The script, command by command. Nothing says that an input ends, and a proved loop has to: it stops at a number of commands that no run
// comes to.
fn follow(input: Stdin, output: Stdout, desks: &mut [u8], store: &mut [u8], out: &mut [u8])
    requires { length out.old ≡ 90844 }
{
    let mut payload = [0u8; PAYLOAD];
    let mut w = Run {
        station: Station::zero(),
        desks: 0,
        store: 0,
        end: 0,
    };
    for n in 0..u64::MAX {
        match fetch(input, &mut payload) {
            Fetched::Unused(m) => {
                end(output, n, m, out);
                return;
            }
            Fetched::Octets(x, k) => {
                w = obey(output, w, x, &payload, k, desks, store, out);
            }
        }
    }
}

// Room for the store buffer. It is known by its length alone: what is computed octet by octet is too long for a proof.
fn room() -> [u8; STORE]
    ensures { 532351 ≡ length result }
{
    [0u8; STORE]
}

fn main(rt: HostRuntime) {
    let mut desks = [0u8; DESKS];
    let mut store = room();
    let mut out = [0u8; TEXT];
    follow(rt.stdin(), rt.stdout(), &mut desks, &mut store, &mut out);
}
