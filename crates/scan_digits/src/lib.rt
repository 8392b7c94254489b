// SWAR parse: reads a number of at most eight digits as one word, so that no branch depends on how many digits there
// are. Crate scan reads all other numbers digit by digit.
#![tactic(auto)]

ghost use Rattle.std.specs.Prelude.{◌≡◌, ◌+◌, ◌<◌, ◌≤◌, min, length, take, drop};
ghost use Rattle.scan_digits.specs.Word.{word_of, value_from, Small, EndOf, ShortRead};

use scan::Number;

// Eight bytes as a number, the first lowest, which the compiler makes a single load.
#[tactic(auto, using(crate::proofs::ShortLaws::eight_bytes))]
pub fn whole_word(s: &[u8], p: usize) -> u64
    requires { p + 8 ≤ length s.now }
    ensures { result ≡ word_of (take 8 (drop p s.now)) }
{
    u64::from_le_bytes([
        s[p],
        s[p + 1],
        s[p + 2],
        s[p + 3],
        s[p + 4],
        s[p + 5],
        s[p + 6],
        s[p + 7],
    ])
}

// The bytes from a position on, at most eight. Near the end the last eight are read, so the text must have as many.
#[tactic(auto, using(crate::proofs::ShortLaws::word_there))]
fn word_at(s: &[u8], at: usize) -> u64
    requires in_bounds { 8 ≤ length s.now }
    requires at_in_bounds { at < length s.now }
    ensures { result ≡ word_of (take 8 (drop at s.now)) }
{
    let p = at.min(s.len() - 8);
    let shift = (at - p) * 8;
    whole_word(s, p) >> shift
}

// How many of a word's lowest bytes are at most 9. Up to the first above 9 no byte carries, and that one has its highest bit set in flags.
#[tactic(auto, using(crate::proofs::WordLaws::count_fits, crate::proofs::WordLaws::count_small))]
fn small_count(x: u64) -> usize
    ensures { (Small result x) × (result ≤ 8) }
{
    let raised = x.wrapping_add(0x7676767676767676);
    let flags = (raised | x) & 0x8080808080808080;
    flags.trailing_zeros() as usize / 8
}

// The value of eight digits, the lowest byte first: of twos of digits, then of fours.
#[tactic(auto, using(crate::proofs::WordLaws::tens_fit, crate::proofs::WordLaws::pairs_fit, crate::proofs::WordLaws::twos_fit, crate::proofs::WordLaws::fours_fit, crate::proofs::WordLaws::twos_value))]
fn eight_value(x: u64) -> u64
    requires { Small 8 x }
    ensures { result ≡ value_from 0 8 x }
{
    let twos = (x * 10 + x / 256) & 0x00ff00ff00ff00ff;
    let fours = twos * 100 + twos / 65536;
    fours % 65536 * 10000 + fours / 4294967296 % 65536
}

// The value of the n lowest digits: moved up, they are eight digits, zeros first.
#[tactic(auto, using(crate::proofs::WordLaws::moved_small, crate::proofs::WordLaws::moved_value))]
fn digits_value(x: u64, n: usize) -> u64
    requires n_nonzero { 0 < n }
    requires n_bound { n ≤ 8 }
    requires small { Small n x }
    ensures { result ≡ value_from 0 n x }
{
    let shift = 64 - n * 8;
    eight_value(x << shift)
}

// The number at the front of a part, which ends the line; unknown where the line has fewer than eight bytes. The line is lent beside
// the part, since a word is loaded from it.
#[tactic(auto, using(crate::proofs::ShortLaws::number_there, crate::proofs::ShortLaws::number_last, crate::proofs::ShortLaws::number_more))]
pub fn short_number(line: &[u8], part: &[u8]) -> Option<Number>
    requires { EndOf line.now part.now }
    ensures { ShortRead part.now result }
{
    if line.len() < 8 || part.len() == 0 {
        return None;
    }
    let at = line.len() - part.len();
    let x = word_at(line, at) ^ 0x3030303030303030;
    let digits = small_count(x);
    if digits == 0 {
        return None;
    }
    let value = digits_value(x, digits);
    if digits == part.len() {
        return Some(Number::Last { value, digits });
    }
    // `part[digits]` is the same byte, and slower
    if line[at + digits] == b',' {
        return Some(Number::More { value, digits });
    }
    None
}

// One digit and a comma.
#[tactic(auto, using(crate::proofs::ShortLaws::number_digit))]
fn one_digit(part: &[u8]) -> Option<Number>
    ensures { ShortRead part.now result }
{
    match part {
        [b @ b'0'..=b'9', b',', ..] => Some(Number::More {
            value: (*b - b'0') as u64,
            digits: 1,
        }),
        _ => None,
    }
}

// A number that most often has one digit and is not the last.
pub fn digit_number(line: &[u8], part: &[u8]) -> Option<Number>
    requires { EndOf line.now part.now }
    ensures { ShortRead part.now result }
{
    one_digit(part).or_else(|| short_number(line, part))
}
