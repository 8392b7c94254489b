// Bytes and decimal numbers written at the front of an output: what prints a count, of SPEC 2.6.
#![tactic(auto)]

ghost use Rattle.std.specs.Prelude.{◌≡◌, ◌∷◌, ◌+◌, ◌*◌, ◌≤◌, ◌<◌, length, set};
ghost use Rattle.model.specs.Number.{decimal};
ghost use Rattle.model.specs.Output.{written, output_after};
ghost use Rattle.format.specs.Put.{put_len, over, pair};
ghost use Rattle.format.specs.Digits.{Subtracted, Begun};

// Writes s at the front of out, where out holds it, and answers how many bytes it wrote. A loop: `copy_from_slice` would have the archive for
// C need `memmove` from outside.
#[tactic(auto, using(crate::proofs::PutLaws::short_len, crate::proofs::PutLaws::short_out, crate::proofs::PutLaws::fits_len))]
pub fn put_bytes(s: &[u8], out: &mut [u8]) -> usize
    ensures value { result ≡ put_len (written (length out.old) s.now) }
    ensures out_after { out.new ≡ output_after (written (length out.old) s.now) out.old }
{
    if out.len() < s.len() {
        return 0;
    }
    for i in 0..s.len() {
        out[i] = s[i];
    }
    s.len()
}

// The powers of ten that a u64 holds: entry k is 10^k (`power_at` in proofs/PowerLaws.antt).
const POWERS: [u64; 20] = [
    1,
    10,
    100,
    1000,
    10000,
    100000,
    1000000,
    10000000,
    100000000,
    1000000000,
    10000000000,
    100000000000,
    1000000000000,
    10000000000000,
    100000000000000,
    1000000000000000,
    10000000000000000,
    100000000000000000,
    1000000000000000000,
    10000000000000000000,
];

// How often a power of ten was subtracted from a number, and what is left.
#[derive(Clone, Copy)]
struct Digit {
    digit: u64,
    rest: u64,
}

// How far a number is written: so many bytes, and what is left of it.
#[derive(Clone, Copy)]
struct Written {
    at: usize,
    rest: u64,
}

// The number of decimal digits of v.
pub fn decimal_len(v: u64) -> usize
    ensures { (result ≡ length (decimal v)) × (result ≤ 20) }
{
    if POWERS[19] <= v {
        return 20;
    }
    // no `for`: the power is what the loop counts, and it ends where the next one would not fit
    let mut power = POWERS[1];
    let mut n = 1;
    while power <= v {
        power = power * 10;
        n += 1;
    }
    n
}

// Subtracts a power of ten as often as it fits: at most nine times, since v is below ten times the power. The requirements name this form
// (docs/ARCHITECTURE.md), which is faster than a division (docs/BENCHMARKS.md); what counts is the rest, so it is no `for`.
fn digit_of(v: u64, power: u64) -> Digit
    requires { v < 10 * power }
    ensures { Subtracted v power result }
{
    let mut rest = v;
    let mut digit = 0;
    while power <= rest {
        rest = rest - power;
        digit += 1;
    }
    Digit { digit, rest }
}

// Writes the digits of v at the powers below number `from`, down to number `to`, and leaves out what stands before its first digit.
fn put_run(v: u64, before: Written, from: usize, to: usize, out: &mut [u8]) -> Written
    requires { Begun v from out.old out.old before × (from ≤ 20) × (1 ≤ to) × (to ≤ from) × (length (decimal v) ≤ length out.old) }
    ensures { Begun v to out.old out.new result × (before.at ≤ result.at) }
{
    let powers = POWERS;
    let mut rest = before.rest;
    let mut at = before.at;
    for k in (to..from).rev() {
        let power = powers[k];
        if power <= v {
            let next = digit_of(rest, power);
            out[at] = (48 + next.digit) as u8;
            rest = next.rest;
            at += 1;
        }
    }
    Written { at, rest }
}

// Writes the last digit, which is what is left.
fn put_last(before: Written, out: &mut [u8]) -> usize
    requires { (before.at < length out.old) × (before.rest < 10) }
    ensures { (result ≡ before.at + 1) × (out.new ≡ set out.old before.at (48 + before.rest)) }
{
    let at = before.at;
    out[at] = (48 + before.rest) as u8;
    at + 1
}

// Writes the digits of v at the front of out, which holds them. The compiler unrolls a run of at most twelve turns whose ends it knows, and
// then the table is no longer there: each power is in the code.
fn put_digits(v: u64, out: &mut [u8]) -> usize
    requires { length (decimal v) ≤ length out.old }
    ensures { (result ≡ length (decimal v)) × (out.new ≡ over (decimal v) out.old) }
{
    let none = Written { at: 0, rest: v };
    if v < POWERS[8] {
        let all = put_run(v, none, 8, 1, out);
        return put_last(all, out);
    }
    let high = put_run(v, none, 20, 8, out);
    let all = put_run(v, high, 8, 1, out);
    put_last(all, out)
}

// Writes a field at the front of out: the byte sep, then the digits of v.
pub fn put_number(sep: u8, v: u64, out: &mut [u8]) -> usize
    requires { 1 + length (decimal v) ≤ length out.old }
    ensures { (result ≡ 1 + length (decimal v)) × (out.new ≡ over (sep ∷ decimal v) out.old) }
{
    out[0] = sep;
    let n = put_digits(v, &mut out[1..]);
    1 + n
}

// Writes two fields at the front of out.
pub fn put_pair(first: u8, a: u64, then: u8, b: u64, out: &mut [u8]) -> usize
    requires { length (pair first a then b) ≤ length out.old }
    ensures { (result ≡ length (pair first a then b)) × (out.new ≡ over (pair first a then b) out.old) }
{
    let at = put_number(first, a, out);
    let n = put_number(then, b, &mut out[at..]);
    at + n
}
