// The effect of one record on the reading state (SPEC 3.2): "TN lines, then lines of other tags, then
// end_of_record". TN names the next section, SF gives the path, FN, FNDA, BRDA and DA add an item, and found and hit
// lines only open the section.
ghost use Rattle.std.specs.Prelude.{◌≡◌, ◌+◌, ◌≤◌, length};
ghost use Rattle.model.specs.Limits.{u64_max};
ghost use Rattle.section.specs.Reading.{HoldsState};
ghost use Rattle.report_parser.specs.Effect.{kind_number, text_part, moved_part, moved_checksum, PartWithin, ChecksumWithin, TextsWithin, RowOf, RecordAt, Steps, AddsItem};

use model::{Fault, Part, Record};
use section::{State, on_end_of_record, on_item, on_source_file, on_test_name, open_section};
use table::Row;
use table_item::{branch_row, calls_row, line_row, start_row};

// The only kind whose counts are added.
const FUNCTION_DATA: u8 = 3;

// The record's place in the order of `RecordKind`.
fn kind_number(record: Record) -> u8
    ensures { result ≡ kind_number «record» }
{
    match record {
        Record::TestName(_) => 0,
        Record::SourceFile(_) => 1,
        Record::FunctionName {
            start: _,
            end: _,
            name: _,
        } => 2,
        Record::FunctionData { count: _, name: _ } => FUNCTION_DATA,
        Record::FunctionsFound(_) => 4,
        Record::FunctionsHit(_) => 5,
        Record::BranchData {
            line: _,
            block: _,
            branch: _,
            taken: _,
        } => 6,
        Record::BranchesFound(_) => 7,
        Record::BranchesHit(_) => 8,
        Record::LineData {
            line: _,
            count: _,
            checksum: _,
        } => 9,
        Record::LinesFound(_) => 10,
        Record::LinesHit(_) => 11,
        Record::EndOfRecord => 12,
    }
}

// The test name, the path or the function's name.
fn text_part(record: Record) -> Part
    ensures { result ≡ text_part «record» }
{
    match record {
        Record::TestName(name) => name,
        Record::SourceFile(path) => path,
        Record::FunctionName {
            start: _,
            end: _,
            name,
        } => name,
        Record::FunctionData { count: _, name } => name,
        _ => Part { start: 0, len: 0 },
    }
}

// A part of the line, which has `len` bytes from `at` on, as a part of the text.
fn move_part(part: Part, at: usize, len: usize) -> Part
    requires { (at + len ≤ u64_max) × PartWithin len part }
    ensures { result ≡ moved_part at part }
{
    Part {
        start: at + part.start,
        len: part.len,
    }
}

fn move_checksum(checksum: Option<Part>, at: usize, len: usize) -> Option<Part>
    requires { (at + len ≤ u64_max) × ChecksumWithin len checksum }
    ensures { result ≡ moved_checksum at checksum }
{
    match checksum {
        Some(part) => Some(move_part(part, at, len)),
        None => None,
    }
}

// The row that an FN, FNDA, BRDA or DA line adds. No caller hands over another record.
fn item_row(record: Record, at: usize, len: usize) -> Row
    requires { (at + len ≤ u64_max) × TextsWithin len «record» × AddsItem «record» }
    ensures { RowOf at len «record» result }
{
    match record {
        Record::FunctionName { start, end, name } => {
            return start_row(move_part(name, at, len), start, end);
        }
        Record::FunctionData { count, name } => {
            return calls_row(move_part(name, at, len), count);
        }
        Record::BranchData {
            line,
            block,
            branch,
            taken,
        } => {
            return branch_row(line, block, branch, taken);
        }
        Record::LineData {
            line,
            count,
            checksum,
        } => {
            return line_row(line, count, move_checksum(checksum, at, len));
        }
        _ => {
            return line_row(0, 0, None);
        }
    }
}

// The line is the part of the text from `at` with `len` bytes, and the record's parts lie in it.
pub fn step(
    text: &[u8],
    words: &mut [u64],
    index: usize,
    limit: usize,
    state: State,
    record: Record,
    at: usize,
    len: usize,
) -> Result<State, Fault>
    requires { HoldsState text.now words.old index limit state × (at + len ≤ length text.now) × RecordAt text.now at len «record» }
    ensures { Steps text.now words.old words.new index limit state «record» at len result }
{
    let kind = kind_number(record);
    match kind {
        0 => {
            return on_test_name(state, move_part(text_part(record), at, len));
        }
        1 => {
            let path = move_part(text_part(record), at, len);
            return on_source_file(words, index, limit, state, path);
        }
        4..=5 | 7..=8 | 10..=11 => {
            return open_section(words, index, limit, state);
        }
        12 => {
            return on_end_of_record(text, words, index, limit, state);
        }
        _ => {
            let row = item_row(record, at, len);
            return on_item(text, words, index, limit, state, row, kind == FUNCTION_DATA);
        }
    }
}
