// Prints the report of a table: `into_records` (SPEC 6.1). "Sections in key order: TN, SF, functions,
// branches, lines, end_of_record." Where the output may be too short, a measuring pass with the same code comes first.
#![tactic(auto)]

ghost use Rattle.std.specs.Prelude.{◌≡◌, ℕ, true, ◌++◌, ◌+◌, ◌≤◌, ◌<◌, length};
ghost use Rattle.table.specs.Store.{Store, row};
ghost use Rattle.model.specs.Answer.{refuse_length};
ghost use Rattle.model.specs.Calls.{length_answer};
ghost use Rattle.model.specs.Limits.{max_entries};
ghost use Rattle.model.specs.Lists.{sort};
ghost use Rattle.model.specs.Output.{written, output_after};
ghost use Rattle.model.specs.Printing.{compare_printed, print_report};
ghost use Rattle.table_item.specs.Items.{kind_of};
ghost use Rattle.table_item.specs.SortedItems.{items_at};
ghost use Rattle.table_section.specs.Sections.{entries_at};
ghost use Rattle.section.specs.Table.{Table};
ghost use Rattle.print_sort.specs.Sorting.{items_by};
ghost use Rattle.print_rows.specs.Emit.{RoomFor, Emitted, Printable};
ghost use Rattle.print_report.specs.Printing.{printed_from, PrintableTable, UnchangedBefore, IsKindRange, AreKindRanges, function_lines, FunctionRows, branch_lines, line_lines, GroupRows, SectionPrinted, RequiredLength};
ghost use Rattle.tag_table.specs.Tags.{tag_of};

use model::{Fault, Refusal};
use tag_table::Tags;

// The end of the range of rows of a kind that starts at position `from`.
fn kind_end(words: &[u64], index: usize, used: usize, n: usize, from: usize, kind: u64) -> usize
    requires { Store words.now index used × (n ≤ used) × (from ≤ n) }
    ensures { IsKindRange words.now index n from kind result }
{
    for at in from..n {
        let row = table::get(words, index, used, at);
        if row.tag / 2 != kind {
            return at;
        }
    }
    n
}

// Where a section's functions, branches and lines end.
#[derive(Clone, Copy)]
pub struct KindRanges {
    pub functions: usize,
    pub branches: usize,
    pub lines: usize,
}

// The kind ranges from position `from` on, behind the section's header row.
pub fn find_kind_ranges(
    words: &[u64],
    index: usize,
    used: usize,
    n: usize,
    from: usize,
) -> KindRanges
    requires { Store words.now index used × (n ≤ used) × (from ≤ n) }
    ensures { AreKindRanges words.now index n from result }
{
    let functions = kind_end(words, index, used, n, from, table_item::FUNCTION);
    let branches = kind_end(words, index, used, n, functions, table_item::BRANCH);
    let lines = kind_end(words, index, used, n, branches, table_item::LINE);
    KindRanges {
        functions,
        branches,
        lines,
    }
}

// FN, FNDA, FNF and FNH of the n functions whose row numbers are at word `numbers` on.
pub fn print_numbered(
    tags: Tags,
    text: &[u8],
    words: &[u64],
    numbers: usize,
    n: usize,
    out: &mut [u8],
    at: usize,
    write: bool,
) -> usize
    requires printable { Printable text.now words.now numbers n × (n ≤ max_entries) }
    requires room_for { RoomFor write out.old at (function_lines (tag_of tags) (items_by text.now words.now numbers n)) }
    ensures { Emitted write out.old out.new at (function_lines (tag_of tags.entry) (items_by text.now words.now numbers n)) result }
{
    let end = print_rows::emit_rows(tags, text, words, numbers, n, true, out, at, write);
    print_rows::emit_group(
        tags,
        text,
        words,
        table_item::FUNCTION,
        numbers,
        n,
        out,
        end,
        write,
    )
}

// The n functions from place `from` on, "ordered by start line (none first), then name". In any order their lines are as long, so they
// are sorted only to be written.
fn print_functions(
    tags: Tags,
    text: &[u8],
    words: &mut [u64],
    index: usize,
    used: usize,
    from: usize,
    n: usize,
    spare: usize,
    out: &mut [u8],
    at: usize,
    write: bool,
) -> usize
    requires function_rows { FunctionRows text.now words.old index used from n spare }
    requires room_for { RoomFor write out.old at (function_lines (tag_of tags) (sort compare_printed (items_at text.now words.old index from n))) }
    ensures emitted { Emitted write out.old out.new at (function_lines (tag_of tags.entry) (sort compare_printed (items_at text.now words.old index from n))) result }
    ensures unchanged_before { UnchangedBefore words.old words.new spare }
{
    if write {
        print_sort::sort_functions(text, words, index, used, from, n, spare);
        return print_numbered(tags, text, words, spare, n, out, at, write);
    }
    print_numbered(tags, text, words, index + from, n, out, at, write)
}

// "Then BRDA by key, BRF, BRH; DA by line, LF, LH."
fn print_groups(
    tags: Tags,
    text: &[u8],
    words: &[u64],
    index: usize,
    runs: KindRanges,
    out: &mut [u8],
    at: usize,
    write: bool,
) -> usize
    requires group_rows { GroupRows text.now words.now index runs }
    requires room_for { RoomFor write out.old at (branch_lines (tag_of tags) text.now words.now index runs ++ line_lines (tag_of tags) text.now words.now index runs) }
    ensures { Emitted write out.old out.new at (branch_lines (tag_of tags.entry) text.now words.now index runs ++ line_lines (tag_of tags.entry) text.now words.now index runs) result }
{
    let first = runs.functions;
    let then = runs.branches;
    let n = then - first;
    let end = print_rows::emit_group(
        tags,
        text,
        words,
        table_item::BRANCH,
        index + first,
        n,
        out,
        at,
        write,
    );
    let m = runs.lines - then;
    print_rows::emit_group(
        tags,
        text,
        words,
        table_item::LINE,
        index + then,
        m,
        out,
        end,
        write,
    )
}

// The place of the next section, and the place in the output.
#[derive(Clone, Copy)]
pub struct Printed {
    pub next: usize,
    pub at: usize,
}

// Prints the section whose header row is at position lo.
fn print_section(
    tags: Tags,
    text: &[u8],
    words: &mut [u64],
    index: usize,
    used: usize,
    n: usize,
    lo: usize,
    spare: usize,
    out: &mut [u8],
    at: usize,
    write: bool,
) -> Printed
    requires printable_table { PrintableTable text.now words.old index used n spare × (lo < n) × (kind_of (row words.old index lo) ≡ 0) }
    requires room_for { RoomFor write out.old at (printed_from (tag_of tags) text.now index n words.old lo) }
    ensures { SectionPrinted (printed_from (tag_of tags.entry) text.now index n) write words.old words.new out.old out.new index n lo spare at result }
{
    let header = table::get(words, index, used, lo);
    let runs = find_kind_ranges(words, index, used, n, lo + 1);
    let next = runs.lines;
    let m = runs.functions - (lo + 1);
    let a = print_rows::emit_head(tags, text, header, out, at, write);
    let b = print_functions(
        tags,
        text,
        words,
        index,
        used,
        lo + 1,
        m,
        spare,
        out,
        a,
        write,
    );
    let c = print_groups(tags, text, words, index, runs, out, b, write);
    let end = print_rows::emit_end(tags, text, out, c, write);
    Printed { next, at: end }
}

// All sections, from the output's start on.
fn print_sections(
    tags: Tags,
    text: &[u8],
    words: &mut [u64],
    index: usize,
    used: usize,
    n: usize,
    spare: usize,
    out: &mut [u8],
    write: bool,
) -> usize
    requires printable_table { PrintableTable text.now words.old index used n spare }
    requires room_for { RoomFor write out.old 0 (printed_from (tag_of tags) text.now index n words.old 0) }
    ensures emitted { Emitted write out.old out.new 0 (printed_from (tag_of tags.entry) text.now index n words.old 0) result }
    ensures unchanged_before { UnchangedBefore words.old words.new spare }
{
    let mut lo = 0;
    let mut at = 0;
    // moves to the next section
    while lo < n {
        let printed = print_section(tags, text, words, index, used, n, lo, spare, out, at, write);
        lo = printed.next;
        at = printed.at;
    }
    at
}

// Refusal 14.
pub fn too_short(needed: usize) -> Result<usize, Refusal>
    ensures { result ≡ length_answer {A = ℕ} (refuse_length needed) }
{
    Err(Refusal {
        fault: Fault::OutputTooShort,
        text: 0,
        line: 0,
        field: 0,
        needed: needed as u64,
    })
}

// A length that is enough for the report: what it needs where the output is shorter, and 0 where the output is surely long enough.
fn required_len(
    tags: Tags,
    text: &[u8],
    words: &mut [u64],
    index: usize,
    used: usize,
    n: usize,
    spare: usize,
    out: &mut [u8],
) -> usize
    requires printable_table { PrintableTable text.now words.old index used n spare }
    ensures required_length { RequiredLength out.old out.new (printed_from (tag_of tags.entry) text.now index n words.old 0) result }
    ensures unchanged_before { UnchangedBefore words.old words.new spare }
{
    if print_bound::surely_fits(tags, words, index, used, n, out.len()) {
        return 0;
    }
    print_sections(tags, text, words, index, used, n, spare, out, false)
}

// Prints the report of the first n rows. An output "shorter than the bytes to be written, whose number is the needed length" stays. `spare`
// is where the 2n free words start that functions are sorted in.
pub fn print_report(
    tags: Tags,
    text: &[u8],
    words: &mut [u64],
    index: usize,
    used: usize,
    n: usize,
    spare: usize,
    out: &mut [u8],
) -> Result<usize, Refusal>
    requires table { Table text.now words.old index used n × (n ≤ max_entries) }
    requires used_bound { (index + used ≤ spare) × (spare + n + n ≤ length words.old) }
    ensures value { result ≡ length_answer (written (length out.old) (print_report (tag_of tags.entry) (entries_at text.now words.old index n))) }
    ensures out_after { out.new ≡ output_after (written (length out.old) (print_report (tag_of tags.entry) (entries_at text.now words.old index n))) out.old }
{
    let needed = required_len(tags, text, words, index, used, n, spare, out);
    if out.len() < needed {
        return too_short(needed);
    }
    let len = print_sections(tags, text, words, index, used, n, spare, out, true);
    Ok(len)
}
