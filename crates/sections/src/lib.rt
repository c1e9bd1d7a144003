// Sections of entries of fixed widths, each after its count of two octets, in a lent buffer: whether they are there, an entry written, and one
// section made longer in place.
//
// Owns the form of a section (specs/Sections.antt). Promises: some octets are told to be just so many sections exactly if they are, whatever counts
// they claim, and nothing is added that could wrap; what is stored is an equation on the whole buffer. Everything is proved once for all widths. The
// callers of this crate show that there is room.
#![tactic(auto)]

ghost use Rattle.std.specs.Prelude.{◌≡◌, ◌++◌, ◌+◌, ◌*◌, ◌≤◌, leb, length, drop};
ghost use Rattle.octets.specs.Number.{part, number_at, in_octets};
ghost use Rattle.octets.specs.Buffer.{put};
ghost use Rattle.sections.specs.Sections.{size, row as row_of, whole_by};

// n octets from place at on, stored again by so many places further. The two stretches may overlap.
fn shift(dst: &mut [u8], at: usize, n: usize, by: usize)
    requires { at + by + n ≤ length dst.old }
    ensures { dst.new ≡ put dst.old (at + by) (part at n dst.old) }
{
    dst.copy_within(at..at + n, at + by);
}

// Whether a section of entries of w octets that begins at place at ends within s.
fn fits(s: &[u8], at: usize, w: usize) -> bool
    requires { (at ≤ length s.now) × (w ≤ 256) }
    ensures { result ≡ leb (2 + number_at (drop at s.now) 0 2 * w) (length (drop at s.now)) }
{
    let left = s.len() - at;
    if left < 2 {
        return false;
    }
    2 + octets::u16_at(s, at) as usize * w <= left
}

// Whether s, from place at on, is sections of entries of these sizes, with nothing behind them.
pub fn is_sections(s: &[u8], at: usize, sizes: &[u8]) -> bool
    requires { at ≤ length s.now }
    ensures { result ≡ whole_by sizes.now (drop at s.now) }
{
    let mut p = at;
    for size in sizes {
        let w = *size as usize;
        if !fits(s, p, w) {
            return false;
        }
        p += 2 + octets::u16_at(s, p) as usize * w;
    }
    p == s.len()
}

// An entry, from place at on: its numbers, each in its field.
pub fn write_row(dst: &mut [u8], at: usize, widths: &[u8], numbers: &[u64])
    requires { (length numbers.now ≡ length widths.now) × (at + size widths.now ≤ length dst.old) }
    ensures { dst.new ≡ put dst.old at (row_of widths.now numbers.now) }
{
    let mut p = at;
    for (width, number) in widths.iter().zip(numbers) {
        let w = *width as usize;
        octets::store(dst, p, w, *number);
        p += w;
    }
}

// A section at place at, of n entries of w octets, moved by so many places, with more entries, those in row, behind its last.
pub fn grow_section(
    dst: &mut [u8],
    at: usize,
    n: usize,
    w: usize,
    by: usize,
    row: &[u8],
    more: usize,
)
    requires { (n ≤ 65535) × (more ≤ 65535) × (w ≤ 256) × (at + by + (2 + n * w + length row.now) ≤ length dst.old) }
    ensures { dst.new ≡ put dst.old (at + by) (in_octets 2 (n + more) ++ part (at + 2) (n * w) dst.old ++ row.now) }
{
    let size = n * w;
    shift(dst, at + 2, size, by);
    octets::store(dst, at + by, 2, (n + more) as u64);
    octets::copy(row, dst, at + by + 2 + size);
}
