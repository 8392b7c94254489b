// Makes calls on a list of range structs, as standard input asks: cases of 21 little-endian u32, which are the call (0 insert, else query),
// the number of ranges used in two halves, start and end, and the eight ranges of the list. For each it writes the answer, and after an
// insert the list. tests/README.md says how the cases and the Rust's answers were recorded.
#![tactic(auto)]

ghost use Rattle.std.specs.Prelude.{◌+◌, ◌*◌, ◌≤◌, ◌≡◌, length};

use line_num::Inserted;
use model::{Range, Refusal};

const LIST: usize = line_num::LIST;

const CASE: usize = 84;

// Where the list starts, in numbers.
const HEAD: usize = 5;

const MAX_CASES: usize = 1000000;

// The k-th number of a case.
fn number(case: &[u8], k: usize) -> u32
    requires { 4 * k + 4 ≤ length case.now }
{
    let low = program_io::u16_at(case, 4 * k);
    let high = program_io::u16_at(case, 4 * k + 2);
    (low + high * 65536) as u32
}

fn list_of(case: &[u8]) -> [Range; LIST]
    requires { length case.now ≡ 84 }
{
    let mut list = [Range { start: 0, end: 0 }; LIST];
    for k in 0..LIST {
        let start = number(case, HEAD + 2 * k);
        let end = number(case, HEAD + 2 * k + 1);
        list[k] = Range { start, end };
    }
    list
}

fn show_list(list: [Range; LIST]) {
    for range in list {
        program_io::show_range(range.start, range.end);
    }
    io::write_all(1, b"\n");
}

fn show_inserted(inserted: Inserted) {
    let answer = inserted.answer;
    let list = inserted.list;
    match answer {
        Ok(n) => {
            program_io::show_number(n as u64);
            show_list(list);
        }
        Err(refusal) => program_io::show_refusal(refusal),
    }
}

fn show(case: &[u8])
    requires { length case.now ≡ 84 }
{
    let call = number(case, 0);
    let used = number(case, 1) as usize + number(case, 2) as usize * 0x1_0000_0000;
    let start = number(case, 3);
    let end = number(case, 4);
    let list = list_of(case);
    if call == 0 {
        show_inserted(line_num::insert_by_value(list, used, start, end));
        return;
    }
    program_io::show_query(line_num::query_by_value(list, used, start, end));
}

fn main() {
    let mut case = [0u8; CASE];
    for _ in 0..MAX_CASES {
        if io::read_full(0, &mut case) < CASE {
            return;
        }
        show(&case);
    }
}
