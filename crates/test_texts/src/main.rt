// Reads recorded texts: standard input holds cases, each a little-endian u16 entry limit, a u16 length and a text of
// that many bytes. For each it reads the text in scratch for that many entries and writes the report, or the refusal.
// tests/README.md says how the texts and their answers were recorded.
#![tactic(auto)]

ghost use Rattle.std.specs.Prelude.{◌≡◌, ◌*◌, min};
ghost use Rattle.model.specs.Limits.{words_per_entry, program_words};

use model::Refusal;

const MAX_INPUT: usize = 131072;

// Words for 256 entries, which is the most that a case may ask for.
const SCRATCH_WORDS: usize = lcov::PROGRAM_WORDS;

const MAX_OUTPUT: usize = lcov::PROGRAM_OUTPUT;

// Scratch for so many entries; all of it where that is not enough.
fn words_for(entries: usize) -> usize
    ensures { result ≡ min (entries * words_per_entry) program_words }
{
    entries
        .saturating_mul(lcov::WORDS_PER_ENTRY)
        .min(SCRATCH_WORDS)
}

fn show(text: &[u8], entries: usize) {
    let mut scratch = [0u64; SCRATCH_WORDS];
    let mut out = [0u8; MAX_OUTPUT];
    let words = words_for(entries);
    match lcov::read_text(text, &mut scratch[..words], &mut out) {
        Ok(n) => program_io::write_first(&out, n),
        Err(refusal) => program_io::show_refusal(refusal),
    }
}

fn show_all(input: &[u8]) {
    let mut at = 0;
    // by cases
    while 4 <= input.len() - at {
        let entries = program_io::u16_at(input, at);
        let end = program_io::case_end(input, at + 2);
        show(&input[at + 4..end], entries);
        at = end;
    }
}

fn main() {
    let mut input = [0u8; MAX_INPUT];
    let n = io::read_full(0, &mut input);
    show_all(&input[..n]);
}
