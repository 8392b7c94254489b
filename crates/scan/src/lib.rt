// Bytes searched, compared and trimmed, and numbers read. These are the words "bytes 10 and 13 are dropped" of SPEC 2.1 and "a number has
// digits alone" of SPEC 2.3.
#![tactic(auto)]

ghost use Rattle.std.specs.Prelude.{◌≡◌, ◌<◌, ◌≤◌, length, take};
ghost use Rattle.model.specs.Bytes.{before, same_bytes};
ghost use Rattle.model.specs.Line.{trimmed};
ghost use Rattle.scan.specs.Scan.{is_end, is_signed, with_digits, Above, NumberRead};

use model::Fault;

// A number at the front of a text, with how many digits were read: the text ends after them, or a comma follows.
#[derive(Clone, Copy)]
pub enum Number {
    Last { value: u64, digits: usize },
    More { value: u64, digits: usize },
}

// The index of the first byte b, or the length where there is none.
#[tactic(auto, using(crate::proofs::ByteLaws::found_here, crate::proofs::ByteLaws::found_later, crate::proofs::ByteLaws::found_none))]
pub fn find(s: &[u8], b: u8) -> usize
    ensures { (result ≡ length (before b s.now)) × (result ≤ length s.now) }
{
    for i in 0..s.len() {
        if s[i] == b {
            return i;
        }
    }
    s.len()
}

// No `a == b`: it calls the library's comparison where the first four bytes agree, and a line of FNDA then takes 33 instructions more
// (callgrind, 170 to read one).
#[tactic(auto, using(crate::proofs::ByteLaws::same_length, crate::proofs::ByteLaws::same_differ, crate::proofs::ByteLaws::same_next, crate::proofs::ByteLaws::same_end))]
pub fn equal(a: &[u8], b: &[u8]) -> bool
    ensures { result ≡ same_bytes a.now b.now }
{
    if a.len() != b.len() {
        return false;
    }
    for i in 0..a.len() {
        if a[i] != b[i] {
            return false;
        }
    }
    true
}

// Whether s starts with t. No `s.starts_with(t)`, for the same reason.
#[tactic(auto, using(crate::proofs::ByteLaws::starts_short))]
pub fn starts_with(s: &[u8], t: &[u8]) -> bool
    ensures { result ≡ same_bytes (take (length t.now) s.now) t.now }
{
    let n = t.len();
    if s.len() < n {
        return false;
    }
    equal(&s[..n], t)
}

#[tactic(auto, unfolding(crate::specs::Scan::is_end))]
fn is_end(b: u8) -> bool
    ensures { result ≡ is_end b }
{
    b == b'\n' || b == b'\r'
}

// The line without bytes 10 and 13 at its end.
#[tactic(auto, using(crate::proofs::ByteLaws::trim_none, crate::proofs::ByteLaws::trim_stop, crate::proofs::ByteLaws::trim_more))]
pub fn trim(s: &[u8]) -> &[u8]
    ensures { result.now ≡ trimmed s.now }
{
    for i in (0..s.len()).rev() {
        if !is_end(s[i]) {
            return &s[..i + 1];
        }
    }
    &s[..0]
}

// Whether a plus sign comes first.
#[tactic(auto, unfolding(crate::specs::Scan::is_signed))]
fn is_signed(s: &[u8]) -> bool
    ensures { result ≡ is_signed s.now }
{
    matches!(s, [b'+', ..])
}

// The number that has so many digits; without one it is empty.
#[tactic(auto, using(crate::proofs::NumberLaws::digits_some, crate::proofs::NumberLaws::digits_empty))]
fn with_digits(digits: usize, number: Number) -> Result<Number, Fault>
    ensures { result ≡ with_digits digits number }
{
    if digits == 0 {
        return Err(Fault::EmptyNumber);
    }
    Ok(number)
}

// Whether the value with one more digit is above max. Most digits need the first test only.
fn is_above(value: u64, digit: u64, max: u64) -> bool
    requires { digit ≤ 9 }
    ensures { Above value digit max result }
{
    max / 10 <= value && (max / 10 < value || max - value * 10 < digit)
}

// The number at the front of s, up to the first comma or the end; it is at most max.
#[tactic(auto, using(crate::proofs::NumberLaws::sign_read, crate::proofs::NumberLaws::scan_start_lem, crate::proofs::NumberLaws::scan_end, crate::proofs::NumberLaws::scan_comma, crate::proofs::NumberLaws::scan_bad, crate::proofs::NumberLaws::scan_large, crate::proofs::NumberLaws::scan_step))]
pub fn read_number(s: &[u8], max: u64) -> Result<Number, Fault>
    ensures { NumberRead max s.now result }
{
    if is_signed(s) {
        return Err(Fault::SignedNumber);
    }
    let mut value = 0;
    for i in 0..s.len() {
        let b = s[i];
        let digit = b.wrapping_sub(b'0') as u64;
        if 9 < digit {
            if b == b',' {
                return with_digits(i, Number::More { value, digits: i });
            }
            return Err(Fault::InvalidDigit);
        }
        if is_above(value, digit, max) {
            return Err(Fault::NumberOverflow);
        }
        value = value * 10 + digit;
    }
    with_digits(
        s.len(),
        Number::Last {
            value,
            digits: s.len(),
        },
    )
}
