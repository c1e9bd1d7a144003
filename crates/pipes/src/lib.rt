// Octets in from standard input, and out to standard output and standard error.
//
// Promises: every call ends; what was read is within the buffer; of a writer that tells what it holds, octets that are said to be written stand
// behind what it held. Of the system's streams no contract can say what they give or take. A read that fails counts as the end of the input.
#![tactic(auto)]

ghost use Rattle.std.specs.Prelude.{◌≡◌, ◌≤◌, true, length};
ghost use Rattle.std.specs.Io.KnownBytes.{Appends};

use std::io::{Read, Stdin, Write};

// One read: how many octets came, at the start of the buffer; 0 at the end of the input.
pub fn read_some(input: Stdin, buf: &mut [u8]) -> usize
    ensures { result ≤ length buf.new }
{
    let mut from = input;
    match from.read(buf) {
        Ok(n) => n,
        Err(_) => 0,
    }
}

// Reads until the buffer is full or the input ends: how many octets came.
pub fn read_full(input: Stdin, buf: &mut [u8]) -> usize
    ensures { result ≤ length buf.new }
{
    let mut done: usize = 0;
    while done < buf.len() {
        let n = read_some(input, &mut buf[done..]);
        if n == 0 {
            return done;
        }
        done += n;
    }
    done
}

// Writes all the octets: whether they were written.
pub fn write_all<W: Write>(output: &mut W, octets: &[u8]) -> bool
    ensures { result ≡ true → Appends (W.contents output.old) (W.contents output.new) octets.now }
{
    match output.write_all(octets) {
        Ok(_) => true,
        Err(_) => false,
    }
}
