// The line that a command prints: its letter, the answer's number, and the values behind it.
ghost use Rattle.std.specs.Prelude.{◌≡◌, [], ◌∷◌, ◌+◌, ◌*◌, ◌≤◌, length, take};
ghost use mathlib.Core.List.{flat_map};
ghost use Rattle.text.specs.Pieces.{Written, spaced};
ghost use Rattle.catalogue.specs.Answers.{entered_said, read_said, file_said, image_said, channel_said};
ghost use Rattle.clerk.specs.Printed.{said_line, Says};

use catalogue::{ChannelEntry, FileEntry, ImageEntry, Sizes};
use refusals::Refusal;

// The numbers of a line: so many of these. No line has more than six.
#[derive(Clone, Copy)]
pub struct Said {
    pub numbers: [u64; 6],
    pub count: usize,
}

// The answer's number alone, which no value goes with.
fn alone(n: u8) -> Said
    ensures { Says result (n ∷ []) }
{
    Said {
        numbers: [n as u64, 0, 0, 0, 0, 0],
        count: 1,
    }
}

pub fn entered_said(a: Result<usize, Refusal>) -> Said
    ensures { Says result (entered_said a) }
{
    match a {
        Err(r) => alone(r.0),
        Ok(n) => Said {
            numbers: [0, n as u64, 0, 0, 0, 0],
            count: 2,
        },
    }
}

pub fn read_said(a: Result<Sizes, Refusal>) -> Said
    ensures { Says result (read_said a) }
{
    match a {
        Err(r) => alone(r.0),
        Ok(s) => Said {
            numbers: [0, s.files as u64, s.images as u64, s.channels as u64, 0, 0],
            count: 4,
        },
    }
}

pub fn file_said(a: Result<Option<FileEntry>, Refusal>) -> Said
    ensures { Says result (file_said a) }
{
    match a {
        Err(r) => alone(r.0),
        Ok(None) => alone(0),
        Ok(Some(e)) => {
            let f = e.facts;
            Said {
                numbers: [
                    0,
                    f.channel.0 as u64,
                    f.application.0 as u64,
                    f.counter as u64,
                    f.bits,
                    e.kind as u64,
                ],
                count: 6,
            }
        }
    }
}

pub fn image_said(a: Result<Option<ImageEntry>, Refusal>) -> Said
    ensures { Says result (image_said a) }
{
    match a {
        Err(r) => alone(r.0),
        Ok(None) => alone(0),
        Ok(Some(e)) => {
            let p = e.picture;
            Said {
                numbers: [
                    0,
                    e.index as u64,
                    p.columns as u64,
                    p.lines as u64,
                    p.number as u64,
                    p.total as u64,
                ],
                count: 6,
            }
        }
    }
}

pub fn channel_said(a: Result<Option<ChannelEntry>, Refusal>) -> Said
    ensures { Says result (channel_said a) }
{
    match a {
        Err(r) => alone(r.0),
        Ok(None) => alone(0),
        Ok(Some(e)) => Said {
            numbers: [0, e.channel.0 as u64, e.files as u64, 0, 0, 0],
            count: 3,
        },
    }
}

// Numbers, each behind a space.
fn spaced_all(numbers: &[u64], out: &mut [u8], at: usize) -> usize
    requires { at + 21 * length numbers.now ≤ length out.old }
    ensures { (result ≤ at + 21 * length numbers.now) × Written out.old at (flat_map spaced numbers.now) out.new result }
{
    let mut end = at;
    for n in numbers {
        end = text::number(*n, out, end);
    }
    end
}

// The line of a letter, at the start of out; nothing if there is nothing to say.
pub fn said_line(letter: u8, s: Said, out: &mut [u8]) -> usize
    requires { (s.count ≤ 6) × (length out.old ≡ 128) }
    ensures { (result ≤ 128) × Written out.old 0 (said_line letter (take s.count s.numbers)) out.new result }
{
    let n = s.count;
    if n == 0 {
        return 0;
    }
    let first = text::word(&[letter], out, 0);
    let last = spaced_all(&s.numbers[..n], out, first);
    text::line_end(out, last)
}
