// What the C calling form hands back for an answer: a number, which is 0 or a refusal's, and eight words (specs/Words.antt).
#![tactic(auto)]

ghost use Rattle.std.specs.Prelude.{◌≡◌, ℕ, List};
ghost use Rattle.lcov_c_words.specs.Words.{function_words, branch_words, line_data_words, record_words, refusal_words, counted_words, length_words, held_words, bounds_words, answer_words, answer_number, with_prefix};

use model::{Counted, Part, Record, Refusal};
use model_bounds::Bounds;

// A value that a call hands back as eight words.
pub trait Words {
    ghost words: { Self → List ℕ };

    fn words(self) -> [u64; 8]
        ensures { result ≡ words self };
}

fn function_words(start: u32, end: Option<u32>, name: Part) -> [u64; 8]
    ensures { result ≡ function_words start end name }
{
    match end {
        Some(line) => [
            3,
            start as u64,
            line as u64,
            0,
            0,
            1,
            name.start as u64,
            name.len as u64,
        ],
        None => [
            3,
            start as u64,
            0,
            0,
            0,
            0,
            name.start as u64,
            name.len as u64,
        ],
    }
}

fn branch_words(line: u32, block: u32, branch: u32, taken: Option<u64>) -> [u64; 8]
    ensures { result ≡ branch_words line block branch taken }
{
    match taken {
        Some(count) => [7, line as u64, block as u64, branch as u64, count, 1, 0, 0],
        None => [7, line as u64, block as u64, branch as u64, 0, 0, 0, 0],
    }
}

fn line_data_words(line: u32, count: u64, checksum: Option<Part>) -> [u64; 8]
    ensures { result ≡ line_data_words line count checksum }
{
    match checksum {
        Some(part) => [
            10,
            line as u64,
            count,
            0,
            0,
            1,
            part.start as u64,
            part.len as u64,
        ],
        None => [10, line as u64, count, 0, 0, 0, 0, 0],
    }
}

impl Words for Record {
    ghost words = { record_words };

    fn words(self) -> [u64; 8] {
        match self {
            Record::TestName(name) => [1, 0, 0, 0, 0, 0, name.start as u64, name.len as u64],
            Record::SourceFile(path) => [2, 0, 0, 0, 0, 0, path.start as u64, path.len as u64],
            Record::FunctionName { start, end, name } => function_words(start, end, name),
            Record::FunctionData { count, name } => [
                4,
                count,
                0,
                0,
                0,
                0,
                name.start as u64,
                name.len as u64,
            ],
            Record::FunctionsFound(found) => [5, found as u64, 0, 0, 0, 0, 0, 0],
            Record::FunctionsHit(hit) => [6, hit as u64, 0, 0, 0, 0, 0, 0],
            Record::BranchData {
                line,
                block,
                branch,
                taken,
            } => branch_words(line, block, branch, taken),
            Record::BranchesFound(found) => [8, found as u64, 0, 0, 0, 0, 0, 0],
            Record::BranchesHit(hit) => [9, hit as u64, 0, 0, 0, 0, 0, 0],
            Record::LineData {
                line,
                count,
                checksum,
            } => line_data_words(line, count, checksum),
            Record::LinesFound(found) => [11, found as u64, 0, 0, 0, 0, 0, 0],
            Record::LinesHit(hit) => [12, hit as u64, 0, 0, 0, 0, 0, 0],
            Record::EndOfRecord => [13, 0, 0, 0, 0, 0, 0, 0],
        }
    }
}

// The value, and how many digits were read.
impl Words for Counted {
    ghost words = { counted_words };

    fn words(self) -> [u64; 8] {
        [self.value, self.digits as u64, 0, 0, 0, 0, 0, 0]
    }
}

// A number of bytes written, or of pairs used.
impl Words for usize {
    ghost words = { length_words };

    fn words(self) -> [u64; 8] {
        [self as u64, 0, 0, 0, 0, 0, 0, 0]
    }
}

// Whether a line is held: 1 or 0.
impl Words for bool {
    ghost words = { held_words };

    fn words(self) -> [u64; 8] {
        [u64::from(self), 0, 0, 0, 0, 0, 0, 0]
    }
}

impl Words for Bounds {
    ghost words = { bounds_words };

    fn words(self) -> [u64; 8] {
        let Bounds { least, greatest } = self;
        [
            least.lines,
            greatest.lines,
            least.functions,
            greatest.functions,
            least.branches,
            greatest.branches,
            0,
            0,
        ]
    }
}

fn refusal_words(refusal: Refusal) -> [u64; 8]
    ensures { result ≡ refusal_words refusal }
{
    [
        refusal.text as u64,
        refusal.line,
        refusal.field as u64,
        refusal.needed,
        0,
        0,
        0,
        0,
    ]
}

// Puts the words into the slice, where it holds them all.
pub fn put_words(words: [u64; 8], slice: &mut [u64])
    ensures { slice.new ≡ with_prefix words slice.old }
{
    if slice.len() < 8 {
        return;
    }
    slice[..8].copy_from_slice(&words);
}

// Hands an answer back: the words of its value or of its refusal into the slice, where that holds them, and its number. As a call of its
// own it costs 20 of the 250 instructions that a line takes to read.
#[inline(always)]
pub fn store_answer<T: Words>(answer: Result<T, Refusal>, slice: &mut [u64]) -> u32
    ensures number { result ≡ answer_number answer }
    ensures words { slice.new ≡ with_prefix (answer_words T.words answer) slice.old }
{
    match answer {
        Ok(value) => {
            put_words(value.words(), slice);
            0
        }
        Err(refusal) => {
            put_words(refusal_words(refusal), slice);
            u32::from(refusal.fault)
        }
    }
}
