// Prints rows as lines (SPEC 6), in one code for two passes: one measures, with an offset that
// saturates at 2^64 − 1; one writes: "Each line is written into the rest of the output".
#![tactic(auto)]

ghost use Rattle.std.specs.Prelude.{◌≡◌, true, List, [], ◌∷◌, ℕ, suc, ◌+◌, ◌%◌, ◌≤◌, min, length};
ghost use Rattle.table.specs.Places.{tabulate};
ghost use Rattle.model.specs.Lists.{concat_map};
ghost use Rattle.model.specs.Answer.{accepted};
ghost use Rattle.model.specs.Limits.{u32_max, u64_max};
ghost use Rattle.model.specs.Record.{test_name, source_file, end_of_record};
ghost use Rattle.model.specs.Report.{extent_of};
ghost use Rattle.model.specs.Parts.{given_in, record_in};
ghost use Rattle.model.specs.Printing.{start_record, data_record, group, hits, print_records};
ghost use Rattle.model.specs.Valid.{ItemFits};
ghost use Rattle.table_item.specs.Items.{part, start_key, item_of, ItemInBounds};
ghost use Rattle.record_display.specs.Lines.{line_in, counted};
ghost use Rattle.print_rows.specs.Emit.{end_len, RoomFor, Emitted, Numbered, Printable, numbered_item, pass_records, found_of, hit_of, lent_part, lent_taken, lent_checksum, hit_one};
ghost use Rattle.tag_table.specs.Tags.{tag_of};

use model::{Kind, Part, Record, Refusal};
use table::Row;
use tag_table::Tags;

// Bytes.
pub fn emit_bytes(s: &[u8], out: &mut [u8], at: usize, write: bool) -> usize
    requires { RoomFor write out.old at s.now }
    ensures { Emitted write out.old out.new at s.now result }
{
    if write {
        let n = format::put_bytes(s, &mut out[at..]);
        return at + n;
    }
    at.saturating_add(s.len())
}

// One record's line. A record with a part outside text has none.
fn emit_record(
    tags: Tags,
    text: &[u8],
    record: Record,
    out: &mut [u8],
    at: usize,
    write: bool,
) -> usize
    requires { RoomFor write out.old at (line_in (tag_of tags) text.now «record») }
    ensures { Emitted write out.old out.new at (line_in (tag_of tags.entry) text.now «record») result }
{
    if write {
        let wrote = record_display::print_line(tags, text, record, &mut out[at..]);
        let Ok(n) = wrote else {
            return at;
        };
        return at + n;
    }
    at.saturating_add(record_display::line_len(tags, text, record))
}

// The length of an end line and the comma before it.
fn end_len(end: Option<u32>) -> usize
    ensures { (result ≡ end_len (given_in end)) × (result ≤ 21) }
{
    match end {
        Some(line) => 1 + format::decimal_len(line as u64),
        None => 0,
    }
}

// The offset behind the FN of a function that has a start line, computed from its row.
fn measure_start(tags: Tags, row: Row, start: u64, at: usize) -> usize
    requires { (text : List ℕ) → start_key (extent_of (item_of text row)) ≡ suc start }
    ensures { (text : List ℕ) → ItemInBounds text row → result ≡ min (at + length (print_records (tag_of tags.entry) (start_record (item_of text row)))) u64_max }
{
    let tag = tag_table::tag_len(tags, Kind::FunctionName);
    let numbers = 3 + tag + format::decimal_len(start) + end_len(table_item::end_line(row));
    at.saturating_add(numbers).saturating_add(row.k2 as usize)
}

// FN, where a function has a start.
fn emit_start(tags: Tags, text: &[u8], row: Row, out: &mut [u8], at: usize, write: bool) -> usize
    requires item_in_bounds { ItemInBounds text.now row × ItemFits (item_of text.now row) }
    requires room_for { RoomFor write out.old at (print_records (tag_of tags) (start_record (item_of text.now row))) }
    ensures { Emitted write out.old out.new at (print_records (tag_of tags.entry) (start_record (item_of text.now row))) result }
{
    let key = table_item::start_key(row);
    if key == 0 {
        return at;
    }
    let start = key - 1;
    if write {
        let record = Record::FunctionName {
            start: start as u32,
            end: table_item::end_line(row),
            name: part_of(row.k1, row.k2),
        };
        return emit_record(tags, text, record, out, at, write);
    }
    measure_start(tags, row, start, at)
}

fn part_of(start: u64, len: u64) -> Part
    ensures { result ≡ lent_part start len }
{
    Part {
        start: start as usize,
        len: len as usize,
    }
}

fn taken_of(row: Row) -> Option<u64>
    ensures { result ≡ lent_taken (row.tag % 2) row.count }
{
    if row.tag % 2 == 0 {
        return None;
    }
    Some(row.count)
}

fn checksum_of(row: Row) -> Option<Part>
    ensures { result ≡ lent_checksum (row.tag % 2) row.k2 row.k3 }
{
    if row.tag % 2 == 0 {
        return None;
    }
    Some(part_of(row.k2, row.k3))
}

// FNDA, BRDA or DA, as a record.
fn emit_item(tags: Tags, text: &[u8], row: Row, out: &mut [u8], at: usize, write: bool) -> usize
    requires item_in_bounds { ItemInBounds text.now row × ItemFits (item_of text.now row) }
    requires room_for { RoomFor write out.old at (print_records (tag_of tags) (data_record (item_of text.now row))) }
    ensures { Emitted write out.old out.new at (print_records (tag_of tags.entry) (data_record (item_of text.now row))) result }
{
    let kind = row.tag / 2;
    if kind == table_item::FUNCTION {
        let record = Record::FunctionData {
            count: row.count,
            name: part_of(row.k1, row.k2),
        };
        return emit_record(tags, text, record, out, at, write);
    }
    if kind == table_item::BRANCH {
        let record = Record::BranchData {
            line: row.k1 as u32,
            block: row.k2 as u32,
            branch: row.k3 as u32,
            taken: taken_of(row),
        };
        return emit_record(tags, text, record, out, at, write);
    }
    if kind == table_item::LINE {
        let record = Record::LineData {
            line: row.k1 as u32,
            count: row.count,
            checksum: checksum_of(row),
        };
        return emit_record(tags, text, record, out, at, write);
    }
    at
}

// The offset behind a row's FNDA, BRDA or DA, computed from the row, without a record.
fn measure_data(tags: Tags, row: Row, at: usize) -> usize
    ensures { (text : List ℕ) → ItemInBounds text row → result ≡ min (at + length (print_records (tag_of tags.entry) (data_record (item_of text row)))) u64_max }
{
    let kind = row.tag / 2;
    if kind == table_item::LINE {
        let tag = tag_table::tag_len(tags, Kind::LineData);
        let numbers = 3 + tag + format::decimal_len(row.k1) + format::decimal_len(row.count);
        if row.tag % 2 == 0 {
            return at.saturating_add(numbers);
        }
        return at
            .saturating_add(numbers + 1)
            .saturating_add(row.k3 as usize);
    }
    if kind == table_item::BRANCH {
        let key = tag_table::tag_len(tags, Kind::BranchData)
            + format::decimal_len(row.k1)
            + format::decimal_len(row.k2)
            + format::decimal_len(row.k3);
        if row.tag % 2 == 0 {
            return at.saturating_add(key + 6);
        }
        return at.saturating_add(key + 5 + format::decimal_len(row.count));
    }
    if kind == table_item::FUNCTION {
        let tag = tag_table::tag_len(tags, Kind::FunctionData);
        let number = 3 + tag + format::decimal_len(row.count);
        return at.saturating_add(number).saturating_add(row.k2 as usize);
    }
    at
}

// DA of a line with no checksum, written with no record made.
fn emit_line_data(tags: Tags, line: u32, count: u64, out: &mut [u8], at: usize) -> usize
    requires { RoomFor true out.old at (line_in (tag_of tags) [] (counted line count)) }
    ensures { Emitted true out.old out.new at (line_in (tag_of tags.entry) [] (counted line count)) result }
{
    let wrote = record_display::print_line_data(tags, line, count, &mut out[at..]);
    let Ok(n) = wrote else {
        return at;
    };
    at + n
}

// FNDA, BRDA or DA. Under the default tags DA makes no record.
fn emit_data(tags: Tags, text: &[u8], row: Row, out: &mut [u8], at: usize, write: bool) -> usize
    requires item_in_bounds { ItemInBounds text.now row × ItemFits (item_of text.now row) }
    requires room_for { RoomFor write out.old at (print_records (tag_of tags) (data_record (item_of text.now row))) }
    ensures { Emitted write out.old out.new at (print_records (tag_of tags.entry) (data_record (item_of text.now row))) result }
{
    if write {
        if row.tag == table_item::LINE * 2 && tags.are_default() {
            return emit_line_data(tags, row.k1 as u32, row.count, out, at);
        }
        return emit_item(tags, text, row, out, at, write);
    }
    measure_data(tags, row, at)
}

// What one pass prints of a row: FN where `starts`, and FNDA, BRDA or DA in the other.
fn emit_row(
    tags: Tags,
    text: &[u8],
    row: Row,
    starts: bool,
    out: &mut [u8],
    at: usize,
    write: bool,
) -> usize
    requires item_in_bounds { ItemInBounds text.now row × ItemFits (item_of text.now row) }
    requires room_for { RoomFor write out.old at (print_records (tag_of tags) (pass_records starts (item_of text.now row))) }
    ensures { Emitted write out.old out.new at (print_records (tag_of tags.entry) (pass_records starts (item_of text.now row))) result }
{
    if starts {
        return emit_start(tags, text, row, out, at, write);
    }
    emit_data(tags, text, row, out, at, write)
}

// One pass over the n rows whose numbers are at word `numbers` on.
pub fn emit_rows(
    tags: Tags,
    text: &[u8],
    words: &[u64],
    numbers: usize,
    n: usize,
    starts: bool,
    out: &mut [u8],
    at: usize,
    write: bool,
) -> usize
    requires printable { Printable text.now words.now numbers n }
    requires room_for { RoomFor write out.old at (print_records (tag_of tags) (concat_map (pass_records starts) (tabulate (numbered_item text.now words.now numbers) n))) }
    ensures { Emitted write out.old out.new at (print_records (tag_of tags.entry) (concat_map (pass_records starts) (tabulate (numbered_item text.now words.now numbers) n))) result }
{
    let mut end = at;
    for i in 0..n {
        let j = words[numbers + i] as usize;
        let row = table::read_row(words, j);
        end = emit_row(tags, text, row, starts, out, end, write);
    }
    end
}

// 1 for a row that is hit: its count is above 0. A branch with no taken count, and a section's header row, count 0.
fn hit_of(row: Row) -> u32
    ensures { ((text : List ℕ) → result ≡ hit_one (item_of text row)) × (result ≤ 1) }
{
    if row.count == 0 {
        return 0;
    }
    if row.tag < table_item::FUNCTION * 2 {
        return 0;
    }
    if row.tag == table_item::BRANCH * 2 {
        return 0;
    }
    1
}

// How many of the n rows whose numbers are at word `numbers` on are hit.
pub fn count_hits(words: &[u64], numbers: usize, n: usize) -> u32
    requires { Numbered words.now numbers n × (n ≤ u32_max) }
    ensures { (text : List ℕ) → result ≡ hits (tabulate (numbered_item text words.now numbers) n) }
{
    let mut hit = 0;
    for i in 0..n {
        let j = words[numbers + i] as usize;
        hit += hit_of(table::read_row(words, j));
    }
    hit
}

// FNF, BRF or LF.
fn found_record(kind: u64, n: u32) -> Record
    requires { 1 ≤ kind }
    ensures { (text : List ℕ) → record_in text result ≡ accepted (found_of kind n) }
{
    if kind == table_item::FUNCTION {
        return Record::FunctionsFound(n);
    }
    if kind == table_item::BRANCH {
        return Record::BranchesFound(n);
    }
    Record::LinesFound(n)
}

// FNH, BRH or LH.
fn hit_record(kind: u64, n: u32) -> Record
    requires { 1 ≤ kind }
    ensures { (text : List ℕ) → record_in text result ≡ accepted (hit_of kind n) }
{
    if kind == table_item::FUNCTION {
        return Record::FunctionsHit(n);
    }
    if kind == table_item::BRANCH {
        return Record::BranchesHit(n);
    }
    Record::LinesHit(n)
}

// How many rows are counted before they are printed.
const BATCH: usize = 32;

// Prints the data of the n rows whose numbers are at word `numbers` on, then how many were found and hit: "a loop that
// carries the hit number". An empty group prints nothing. The rows are scattered in memory, so the hits of a batch are
// counted first, in a short loop that lets many cache misses overlap.
pub fn emit_group(
    tags: Tags,
    text: &[u8],
    words: &[u64],
    kind: u64,
    numbers: usize,
    n: usize,
    out: &mut [u8],
    at: usize,
    write: bool,
) -> usize
    requires printable { Printable text.now words.now numbers n }
    requires le_kind { (1 ≤ kind) × (kind ≤ 3) × (n ≤ u32_max) }
    requires room_for { RoomFor write out.old at (print_records (tag_of tags) (group (found_of kind) (hit_of kind) (tabulate (numbered_item text.now words.now numbers) n))) }
    ensures { Emitted write out.old out.new at (print_records (tag_of tags.entry) (group (found_of kind) (hit_of kind) (tabulate (numbered_item text.now words.now numbers) n))) result }
{
    if n == 0 {
        return at;
    }
    let mut end = at;
    let mut hit = 0;
    let mut i = 0;
    // moves by a batch, and the last one is shorter
    while i < n {
        let m = (n - i).min(BATCH);
        hit += count_hits(words, numbers + i, m);
        end = emit_rows(tags, text, words, numbers + i, m, false, out, end, write);
        i += m;
    }
    let found = emit_record(tags, text, found_record(kind, n as u32), out, end, write);
    emit_record(tags, text, hit_record(kind, hit), out, found, write)
}

// TN and SF of a section's header row.
pub fn emit_head(tags: Tags, text: &[u8], row: Row, out: &mut [u8], at: usize, write: bool) -> usize
    requires test_len_in_bounds { (row.test + row.test_len ≤ length text.now) × (row.path + row.path_len ≤ length text.now) }
    requires room_for { RoomFor write out.old at (print_records (tag_of tags) (test_name (part text.now row.test row.test_len) ∷ source_file (part text.now row.path row.path_len) ∷ [])) }
    ensures { Emitted write out.old out.new at (print_records (tag_of tags.entry) (test_name (part text.now row.test row.test_len) ∷ source_file (part text.now row.path row.path_len) ∷ [])) result }
{
    let test = part_of(row.test, row.test_len);
    let end = emit_record(tags, text, Record::TestName(test), out, at, write);
    let path = part_of(row.path, row.path_len);
    emit_record(tags, text, Record::SourceFile(path), out, end, write)
}

// end_of_record.
pub fn emit_end(tags: Tags, text: &[u8], out: &mut [u8], at: usize, write: bool) -> usize
    requires { RoomFor write out.old at (print_records (tag_of tags) (end_of_record ∷ [])) }
    ensures { Emitted write out.old out.new at (print_records (tag_of tags.entry) (end_of_record ∷ [])) result }
{
    emit_record(tags, text, Record::EndOfRecord, out, at, write)
}
