// Shared by the programs: recorded cases from standard input, a refusal in words and numbers, the front of a buffer
// written.
#![tactic(auto)]

ghost use Rattle.std.specs.Prelude.{◌≡◌, ◌+◌, ◌≤◌, length};
ghost use Rattle.format.specs.Put.{over};
ghost use Rattle.program_io.specs.Cases.{u16_at, case_end};
ghost use Rattle.program_io.specs.Refused.{refused_line, max_refused, places};

use model::Refusal;

// The most bytes of standard input that a bundle may have: `program_input` in model/specs/Limits.antt.
pub const MAX_INPUT: usize = 65_536;

fn wide(byte: u8) -> usize
    ensures { (result ≡ byte) × (result ≤ 255) }
{
    byte as usize
}

// The little-endian u16 at an offset.
pub fn u16_at(input: &[u8], at: usize) -> usize
    requires { at + 2 ≤ length input.now }
    ensures { (result ≡ u16_at input.now at) × (result ≤ 65535) }
{
    wide(input[at]) + wide(input[at + 1]) * 256
}

// Where the case that starts at `at` with its length ends, or the end of the input where no whole case is left.
pub fn case_end(input: &[u8], at: usize) -> usize
    requires { at + 2 ≤ length input.now }
    ensures { (result ≡ case_end input.now at) × (at + 2 ≤ result) × (result ≤ length input.now) }
{
    let len = u16_at(input, at);
    let rest = input.len() - 2 - at;
    if rest < len {
        return input.len();
    }
    at + 2 + len
}

// Four numbers, a blank before each, at the front of out.
fn put_places(number: u64, text: u64, line: u64, field: u64, out: &mut [u8]) -> usize
    requires { length (places number text line field) ≤ length out.old }
    ensures { (result ≡ length (places number text line field)) × (out.new ≡ over (places number text line field) out.old) }
{
    let at = format::put_pair(b' ', number, b' ', text, out);
    let n = format::put_pair(b' ', line, b' ', field, &mut out[at..]);
    at + n
}

// `refused`, number, text, line and field, parted by blanks (SPEC 7.3), at the front of out.
pub fn put_refusal(refusal: Refusal, out: &mut [u8]) -> usize
    requires { max_refused ≤ length out.old }
    ensures { (result ≡ length (refused_line «refusal»)) × (out.new ≡ over (refused_line «refusal») out.old) }
{
    let number = u32::from(refusal.fault) as u64;
    let head = format::put_bytes(b"refused", out);
    let n = put_places(
        number,
        refusal.text as u64,
        refusal.line,
        refusal.field as u64,
        &mut out[head..],
    );
    let end = head + n;
    out[end] = 10;
    end + 1
}

// The most bytes that such a line has: `max_refused` in specs/Refused.antt.
const MAX_REFUSED: usize = 92;

pub fn show_refusal(refusal: Refusal) {
    let mut line = [0u8; MAX_REFUSED];
    let n = put_refusal(refusal, &mut line);
    write_first(&line, n);
}

// Writes the first n bytes, or all where there are fewer.
pub fn write_first(bytes: &[u8], n: usize) {
    io::write_all(1, &bytes[..n.min(bytes.len())]);
}

// The most bytes that a number has with a byte before it.
const MAX_NUMBER: usize = 21;

pub fn show_number(n: u64) {
    let mut out = [0u8; MAX_NUMBER];
    let len = format::put_number(b' ', n, &mut out);
    write_first(&out[1..], len - 1);
}

// A range, a blank before it.
pub fn show_range(start: u32, end: u32) {
    let mut out = [0u8; 2 * MAX_NUMBER];
    let len = format::put_pair(b' ', start as u64, b'-', end as u64, &mut out);
    write_first(&out, len);
}

pub fn show_query(answer: Result<bool, Refusal>) {
    match answer {
        Ok(held) => {
            if held {
                io::write_all(1, b"held\n");
            } else {
                io::write_all(1, b"not held\n");
            }
        }
        Err(refusal) => show_refusal(refusal),
    }
}
