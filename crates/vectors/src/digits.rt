// Hexadecimal digits: what the octets of a question are.
ghost use Rattle.std.specs.Prelude.{◌≤◌, ◌≡◌, length};
ghost use Rattle.vectors.specs.Digits.{value_of, octets_of};
ghost use Rattle.vectors.specs.Question.{question_of, found_in, count_of};

// The value of a digit of either case; 16 for an octet that is none.
#[tactic(auto, unfolding(crate::specs::Digits::value_of))]
fn value(x: u8) -> u8
    ensures { result ≡ value_of x }
{
    match x {
        b'0'..=b'9' => x - b'0',
        b'A'..=b'F' => x - b'A' + 10,
        b'a'..=b'f' => x - b'a' + 10,
        _ => 16,
    }
}

// The octets of some digits, two to an octet, are put at the start of asked. Answers how many they are, if the digits stand for octets.
fn decode(digits: &[u8], asked: &mut [u8]) -> Option<usize>
    requires { (length digits.now ≤ 2048) × (length asked.old ≡ 1024) }
    ensures result_bound { count_of result ≤ 1024 }
    ensures asked_after { found_in result asked.new ≡ octets_of digits.now }
{
    if digits.len() % 2 != 0 {
        return None;
    }
    let half = digits.len() / 2;
    for i in 0..half {
        let high = value(digits[2 * i]);
        let low = value(digits[2 * i + 1]);
        if high > 15 {
            return None;
        }
        if low > 15 {
            return None;
        }
        asked[i] = high * 16 + low;
    }
    Some(half)
}

// The same of a question: behind its letter nothing, or one space and digits.
pub fn question(line: &[u8], asked: &mut [u8]) -> Option<usize>
    requires { (1 ≤ length line.now) × (length line.now ≤ 2050) × (length asked.old ≡ 1024) }
    ensures result_bound { count_of result ≤ 1024 }
    ensures asked_after { found_in result asked.new ≡ question_of line.now }
{
    if line.len() == 1 {
        return Some(0);
    }
    if line[1] != b' ' {
        return None;
    }
    decode(&line[2..], asked)
}
