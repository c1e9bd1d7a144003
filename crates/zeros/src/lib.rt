// Whether a stretch of a lent buffer is blank, at the speed of vector code.
//
// Promises: the answer is the one of a look at each octet of the stretch in turn (octets specs/Buffer), whatever the stretch's length and place.
// The callers of this crate show that the stretch is there.
#![tactic(auto)]

ghost use Rattle.std.specs.Prelude.{◌≡◌, ◌-◌, ◌≤◌, length};
ghost use Rattle.octets.specs.Number.{part};
ghost use Rattle.octets.specs.Buffer.{all_zero, four_zero};

// Whether the octets of four stretches of one length are all zero. The "or" is gathered over them all, with no way out at the first octet
// that is not zero: such a loop becomes vector code, and four reads in a turn halve its cost.
fn four_zero(a: &[u8], b: &[u8], c: &[u8], d: &[u8]) -> bool
    requires { (length a.now ≡ length b.now) × (length b.now ≡ length c.now) × (length c.now ≡ length d.now) }
    ensures { result ≡ four_zero a.now b.now c.now d.now }
{
    let mut any: u8 = 0;
    for i in 0..a.len() {
        any |= (a[i] | b[i]) | (c[i] | d[i]);
    }
    any == 0
}

fn run_zero(s: &[u8], from: usize, to: usize) -> bool
    requires { (from ≤ to) × (to ≤ length s.now) }
    ensures { result ≡ all_zero (part from (to - from) s.now) }
{
    let mut any: u8 = 0;
    for x in &s[from..to] {
        any |= *x;
    }
    any == 0
}

// Whether the octets from place from up to place to are all zero: four quarters at once, and the few octets that are left.
pub fn all_zero(s: &[u8], from: usize, to: usize) -> bool
    requires { (from ≤ to) × (to ≤ length s.now) }
    ensures { result ≡ all_zero (part from (to - from) s.now) }
{
    let quarter = (to - from) / 4;
    let second = from + quarter;
    let third = second + quarter;
    let fourth = third + quarter;
    let end = fourth + quarter;
    if !four_zero(
        &s[from..second],
        &s[second..third],
        &s[third..fourth],
        &s[fourth..end],
    ) {
        return false;
    }
    run_zero(s, end, to)
}
