// Replays recorded lines: standard input holds cases, each a little-endian u16 length and a line of that many bytes.
// For each it writes the record printed, or `refused`, number, text (always 0), line and field. tests/README.md says
// how the lines and the Rust's answers were recorded.
#![tactic(auto)]

ghost use Rattle.std.specs.Prelude.{◌+◌, ◌≤◌, length};

use model::{Record, Refusal};

const MAX_INPUT: usize = 131072;

// A line has at most 65,535 bytes, so its record always fits; if not, the output says so and the comparison fails.
fn show_record(line: &[u8], record: Record) {
    let mut out = io::large_buffer();
    let Ok(n) = lcov::print_line(line, record, &mut out) else {
        io::write_all(1, b"no room\n");
        return;
    };
    program_io::write_first(&out, n);
}

fn show(line: &[u8]) {
    match lcov::read_line(line) {
        Ok(record) => show_record(line, record),
        Err(refusal) => program_io::show_refusal(refusal),
    }
}

fn replay(input: &[u8]) {
    let mut at = 0;
    // by cases
    while 2 <= input.len() - at {
        let end = program_io::case_end(input, at);
        show(&input[at + 2..end]);
        at = end;
    }
}

fn main() {
    let mut input = [0u8; MAX_INPUT];
    let n = io::read_full(0, &mut input);
    replay(&input[..n]);
}
