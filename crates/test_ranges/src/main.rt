// Writes what ranges and the filters answer: SPEC 11.1's cases (i), (j) and (k), and a call for each refusal that no line, text or bundle
// gives: 15, 17 and 18.
#![tactic(auto)]

use model::{Part, Record, Refusal};

// All pairs of the slice, those past the used ones too.
fn show_pairs(pairs: &[[u32; 2]]) {
    for pair in pairs {
        program_io::show_range(pair[0], pair[1]);
    }
    io::write_all(1, b"\n");
}

// Answers the number of pairs used afterwards.
fn insert(pairs: &mut [[u32; 2]], used: usize, start: u32, end: u32) -> usize {
    match line_num_pairs::insert(pairs, used, start, end) {
        Ok(n) => {
            program_io::show_number(n as u64);
            show_pairs(pairs);
            n
        }
        Err(refusal) => {
            program_io::show_refusal(refusal);
            used
        }
    }
}

fn query(pairs: &[[u32; 2]], used: usize, start: u32, end: u32) {
    program_io::show_query(line_num_pairs::query(pairs, used, start, end));
}

// 1–2 and 3–4 join, 1–2 and 4–5 don't.
fn case_i() {
    let mut joining = [[0u32; 2]; 2];
    let used = insert(&mut joining, 0, 1, 2);
    insert(&mut joining, used, 3, 4);
    let mut apart = [[0u32; 2]; 2];
    let used = insert(&mut apart, 0, 1, 2);
    insert(&mut apart, used, 4, 5);
}

// 0..0 holds line 0, 5..5 nothing.
fn case_j() {
    let mut pairs = [[0u32; 2]; 1];
    let zero = line_num_pairs::half_open(0, 0);
    let used = insert(&mut pairs, 0, zero.start, zero.end);
    query(&pairs, used, 0, 0);
    let empty = line_num_pairs::half_open(5, 5);
    let mut none = [[9u32; 2]; 1];
    let used = insert(&mut none, 0, empty.start, empty.end);
    query(&none, used, 5, 5);
}

fn show_written(answer: Result<usize, Refusal>, out: &[u8]) {
    match answer {
        Ok(n) => program_io::write_first(out, n),
        Err(refusal) => program_io::show_refusal(refusal),
    }
}

fn filter(pairs: &[[u32; 2]], used: usize, text: &[u8]) {
    let mut scratch = [0u64; 256];
    let mut out = [0u8; 96];
    show_written(
        lcov::filter_text(text, pairs, used, &mut scratch, &mut out),
        &out,
    );
}

fn filter_distinct_starts(pairs: &[[u32; 2]], used: usize, text: &[u8]) {
    let mut scratch = [0u64; 256];
    let mut out = [0u8; 96];
    show_written(
        lcov::filter_text_distinct_starts(text, pairs, used, &mut scratch, &mut out),
        &out,
    );
}

// f and g start at 3, range 3–3: g stays, f goes. Where functions of one start end together, both stay.
fn case_k() {
    filter(&[[3u32, 3]], 1, b"SF:a\nFN:3,f\nFN:3,g\nend_of_record\n");
    filter_distinct_starts(&[[3u32, 3]], 1, b"SF:a\nFN:3,f\nFN:3,g\nend_of_record\n");
}

// Starts 3, 3, 3 and 7: the three end at 6.
fn templates() {
    filter_distinct_starts(
        &[[6u32, 6]],
        1,
        b"FN:3,a\nFN:3,b\nFN:3,c\nFN:7,d\nend_of_record\n",
    );
    filter_distinct_starts(
        &[[7u32, 7]],
        1,
        b"FN:3,a\nFN:3,b\nFN:3,c\nFN:7,d\nend_of_record\n",
    );
}

// An emptied section, an output that is too short, a refused text, and a list that is refused before the text is.
fn filters() {
    filter(&[[3u32, 3]], 1, b"SF:a\nDA:4,1\nend_of_record\n");
    filter(
        &[[3u32, 3]],
        1,
        b"SF:a\nFN:3,a_name_that_is_longer_than_the_output_is\nDA:3,1\nend_of_record\n",
    );
    filter(&[[3u32, 3]], 1, b"SF:a\nDA:4\n");
    filter(&[[3u32, 2]], 1, b"SF:a\nDA:4\n");
}

// The list has no room for a second pair; a pair that joins the first needs none.
fn full() {
    let mut pairs = [[0u32; 2]; 1];
    let used = insert(&mut pairs, 0, 1, 2);
    let used = insert(&mut pairs, used, 4, 4);
    insert(&mut pairs, used, 3, 4);
}

fn ill_formed() {
    let mut pairs = [[2u32, 1]; 1];
    insert(&mut pairs, 1, 5, 6);
    insert(&mut pairs, 2, 5, 6);
    query(&pairs, 1, 5, 6);
}

// A name that starts in the line and ends outside.
fn part_outside() {
    let mut out = [0u8; 16];
    let name = Part { start: 3, len: 2 };
    show_written(
        lcov::print_line(b"TN:a", Record::TestName(name), &mut out),
        &out,
    );
}

fn main() {
    case_i();
    case_j();
    case_k();
    templates();
    filters();
    full();
    ill_formed();
    part_outside();
}
