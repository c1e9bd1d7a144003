// The trial script (docs/TRIAL.md): its commands, what a trial holds beside its buffers, and the commands that set it as they please. And a script that
// is read whole, followed command by command, for any program that has one.
//
// Owns Command, Obeys, what a program says of itself that follows one, and Run. Promises: a command is read as the page has it, limits too; M, P and Q
// change what is held and the two buffers as specs/Memory.antt has it, and any octet and any field of the state can be set; a script leaves what
// specs/Follow.antt has it leave, by what the program says that a command does and prints.
#![tactic(auto)]

mod pokes;
mod whole;

ghost use Rattle.std.specs.Prelude.{◌≡◌, ◌≤◌, length};
ghost use Rattle.script.specs.Script.{command_of, payload_of, count_of};

pub use pokes::poke;
use state::Station;
pub use whole::{Ended, Obeys, follow};

#[derive(Clone, Copy)]
pub struct Command {
    pub letter: u8,
    pub a: u8,
    pub b: u16,
    pub c: u32,
    pub d: u64,
}

// What a trial holds beside its buffers: the state, how many octets of the desks and of the store are lent to a call, and where the text of the
// last command ends.
#[derive(Clone, Copy)]
pub struct Run {
    pub station: Station,
    pub desks: usize,
    pub store: usize,
    pub end: usize,
}

impl Command {
    pub const SIZE: usize = 16;

    pub fn read(s: &[u8]) -> Command
        requires { length s.now ≡ 16 }
        ensures { result ≡ command_of s.now }
    {
        Command {
            letter: s[0],
            a: s[1],
            b: octets::u16_at(s, 2),
            c: octets::u32_at(s, 4),
            d: octets::u64_at(s, 8),
        }
    }

    #[tactic(auto, unfolding(crate::specs::Script::payload_of))]
    pub fn payload(self) -> Option<usize>
        ensures { (result ≡ payload_of self) × (count_of result ≤ 2048) }
    {
        match self.letter {
            b'M' | b'L' | b'I' | b'P' | b'Q' | b'H' => Some(0),
            b'S' if self.b <= 64 => Some(self.b as usize),
            b'F' if self.b <= 1200 && self.c <= 2048 => Some(self.c as usize),
            b'R' if self.c <= 16384 => Some(0),
            _ => None,
        }
    }
}
