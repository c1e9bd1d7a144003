// Single questions to the leaves of the receiver, one a line, as docs/VECTORS.md has them.
//
// Owns the reading of lines of any length from an input of any length. Promises: the program is safe and ends; the octets of a question
// are those that its digits stand for (specs/Digits.antt); what it prints of a line is the text of what the leaves' contracts answer
// (specs/Answers.antt), or nothing for an empty line and a comment (specs/Kept.antt).
#![tactic(auto)]

mod answers;
mod digits;

ghost use Rattle.std.specs.Prelude.{◌≡◌, length, set};
ghost use Rattle.octets.specs.Buffer.{put};
ghost use Rattle.vectors.specs.Kept.{kept, one_more, printed, came as came_of, all_came};

use std::io::Stdout;

// The octets of the longest question: a letter, a space and 2,048 digits.
const QUESTION: usize = 2050;

// The octets of the longest line of answers: a letter, a space, the digits of 1,024 octets, and the line's end.
const ANSWER: usize = 2051;

// What is read at once.
const PORTION: usize = 4096;

// How many octets of a line there are with one more, which is kept if it can still belong to a question. One more than a question can
// have stands for every greater number.
fn gather(line: &mut [u8], held: usize, x: u8) -> usize
    requires { length line.old ≡ 2050 }
    ensures value { result ≡ one_more held }
    ensures line_after { line.new ≡ set line.old held x }
{
    if held < QUESTION {
        line[held] = x;
        return held + 1;
    }
    QUESTION + 1
}

// A line's end. An empty line, and a comment of any length, is passed over.
fn end_line(mut output: Stdout, line: &[u8], held: usize, out: &mut [u8])
    requires { (length line.now ≡ 2050) × (length out.old ≡ 2051) }
    ensures { out.new ≡ put out.old 0 (printed line.now held) }
{
    if held == 0 {
        return;
    }
    if line[0] == b'#' {
        return;
    }
    let last = answers::answer(line, held, out);
    let end = text::line_end(out, last);
    pipes::write_all(&mut output, &out[0..end]);
}

// One octet of the script. Answers how many octets the line has that is begun then.
fn take_octet(output: Stdout, line: &mut [u8], held: usize, x: u8, out: &mut [u8]) -> usize
    requires { (length line.old ≡ 2050) × (length out.old ≡ 2051) }
    ensures { kept result line.new out.new ≡ came_of x (kept held line.old out.old) }
{
    if x == b'\n' {
        end_line(output, line, held, out);
        return 0;
    }
    gather(line, held, x)
}

fn take_in(output: Stdout, came: &[u8], line: &mut [u8], held: usize, out: &mut [u8]) -> usize
    requires { (length line.old ≡ 2050) × (length out.old ≡ 2051) }
    ensures { kept result line.new out.new ≡ all_came came.now (kept held line.old out.old) }
{
    let mut n = held;
    for x in came {
        n = take_octet(output, line, n, *x, out);
    }
    n
}

// Nothing says that an input ends, and a proved loop has to: it has a number of turns that no run uses up.
fn main(rt: HostRuntime) {
    let mut came = [0u8; PORTION];
    let mut line = [0u8; QUESTION];
    let mut out = [0u8; ANSWER];
    let mut held: usize = 0;
    for _ in 0..u64::MAX {
        let n = pipes::read_some(rt.stdin(), &mut came);
        if n == 0 {
            return;
        }
        held = take_in(rt.stdout(), &came[0..n], &mut line, held, &mut out);
    }
}
