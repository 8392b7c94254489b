// A filtered report printed: `LineNum::apply` (SPEC 8.5). Rows and index stay: of each section, the row numbers of what stays
// are put into the spare words, and the section is printed from there.
#![tactic(auto)]

ghost use Rattle.std.specs.Prelude.{◌≡◌, true, List, map, ℕ, ◌+◌, ◌-◌, ◌≤◌, ◌<◌, length, take};
ghost use Rattle.table.specs.Rows.{word, row_at};
ghost use Rattle.table.specs.Store.{row};
ghost use Rattle.model.specs.Calls.{length_answer};
ghost use Rattle.model.specs.declared.Bound.TheVariants.{GreaterStart};
ghost use Rattle.model.specs.Filter.{line_of, is_held, start_line, has_start, end_before, bounding, end_or, filter_section};
ghost use Rattle.model.specs.Limits.{max_entries};
ghost use Rattle.model.specs.Lists.{filter};
ghost use Rattle.model.specs.Output.{written, output_after};
ghost use Rattle.model.specs.Printing.{sections, print_sections};
ghost use Rattle.model.specs.Ranges.{well_formed_ranges};
ghost use Rattle.model.specs.Report.{end_of};
ghost use Rattle.model.specs.Valid.{ItemFits};
ghost use Rattle.table_item.specs.Items.{kind_of, item_of};
ghost use Rattle.table_item.specs.SortedItems.{items_at};
ghost use Rattle.table_section.specs.Sections.{entries_at};
ghost use Rattle.section.specs.Table.{Table};
ghost use Rattle.print_sort.specs.Sorting.{items_by};
ghost use Rattle.print_rows.specs.Emit.{RoomFor, Emitted, Printable};
ghost use Rattle.print_report.specs.Printing.{PrintableTable, UnchangedBefore, AreKindRanges, FunctionRows, SectionPrinted, RequiredLength};
ghost use Rattle.line_num_pairs.specs.Pairs.{ranges_in};
ghost use Rattle.filter.specs.Keeping.{chosen, keeps, Ahead, Behind, Chosen};
ghost use Rattle.filter.specs.Filtered.{filtered_from, Holding, functions_left, KeptRows, SectionPrintable, kept_lines};
ghost use Rattle.tag_table.specs.Tags.{tag_of};

use model::{Bound, Refusal};
use print_report::{KindRanges, Printed};
use table::Row;
use tag_table::Tags;

// What a row must meet to stay: a function that has a start; a branch or line whose line is held; a function whose range, up to its end
// or the start that bounds it, queries yes.
#[derive(Clone, Copy)]
enum Rule {
    Started,
    Held,
    Until(Bound),
}

// A row that was looked at: whether it stays, and of a function its start, and where it ends if it gives no end.
#[derive(Clone, Copy)]
struct Looked {
    stays: bool,
    start: u32,
    end: u32,
}

fn has_start(row: Row) -> bool
    ensures { (text : List ℕ) → result ≡ has_start (item_of text row) }
{
    0 < table_item::start_key(row)
}

fn start_line(row: Row) -> u32
    requires { (text : List ℕ) × ItemFits (item_of text row) }
    ensures { (text : List ℕ) → result ≡ start_line (item_of text row) }
{
    let key = table_item::start_key(row);
    if key == 0 {
        return 0;
    }
    (key - 1) as u32
}

// The line of a branch or line.
fn line_of(row: Row) -> u32
    requires { (text : List ℕ) × ItemFits (item_of text row) }
    ensures { (text : List ℕ) → result ≡ line_of (item_of text row) }
{
    if row.tag < table_item::BRANCH * 2 {
        return 0;
    }
    row.k1 as u32
}

// "a function ends one before the next start (0 stays 0), the last at 2^32 − 1": the end of the function that the first of n
// bounds, whose row numbers are at word `next` on.
fn end_before(words: &[u64], next: usize, n: usize) -> u32
    requires { (text : List ℕ) × Printable text words.now next n }
    ensures { (text : List ℕ) → result ≡ end_before (items_by text words.now next n) }
{
    if n == 0 {
        return u32::MAX;
    }
    let j = words[next] as usize;
    let start = start_line(table::read_row(words, j));
    if start == 0 {
        return 0;
    }
    start - 1
}

// Of the n rows whose numbers are at word `next` on, how many come before the first with a start greater than `start`.
fn skip_starts(words: &[u64], next: usize, n: usize, start: u32) -> usize
    requires { (text : List ℕ) × Printable text words.now next n }
    ensures most { result ≤ n }
    ensures first { (text : List ℕ) → end_before (bounding GreaterStart start (items_by text words.now next n)) ≡ end_before (items_by text words.now (next + result) (n - result)) }
{
    for i in 0..n {
        let j = words[next + i] as usize;
        if start < start_line(table::read_row(words, j)) {
            return i;
        }
    }
    n
}

// The end of a function with the start `start` that gives no end: as the n rows behind it say, whose numbers are at word `next` on.
// Functions of one start are neighbours and have one end, so that of the row looked at last is used again: the rows behind are walked
// once for all of them.
fn reckon_end(words: &[u64], start: u32, next: usize, n: usize, bound: Bound, last: Looked) -> u32
    requires printable { (text : List ℕ) × Printable text words.now next n }
    requires last_end { (text : List ℕ) → bound ≡ GreaterStart → last.start ≡ start → last.end ≡ end_before (bounding GreaterStart start (items_by text words.now next n)) }
    ensures { (text : List ℕ) → result ≡ end_before (bounding bound start (items_by text words.now next n)) }
{
    match bound {
        Bound::NextStart => end_before(words, next, n),
        Bound::GreaterStart => {
            if start == last.start {
                return last.end;
            }
            let skipped = skip_starts(words, next, n, start);
            end_before(words, next + skipped, n - skipped)
        }
    }
}

// The end of a function: as FN says, or else as reckoned.
fn end_of(row: Row, reckoned: u32) -> u32
    ensures { (text : List ℕ) → result ≡ end_or reckoned (end_of (item_of text row)) }
{
    match table_item::end_line(row) {
        Some(line) => line,
        None => reckoned,
    }
}

// Whether the first of the n rows whose numbers are at word `at` on stays, and what the next row is to know of it. `last` is the row
// before it.
fn look(
    words: &[u64],
    pairs: &[[u32; 2]],
    count: usize,
    at: usize,
    n: usize,
    rule: Rule,
    last: Looked,
) -> Looked
    requires printable { (text : List ℕ) × Printable text words.now at n }
    requires ahead { (text : List ℕ) → Ahead rule last (items_by text words.now at n) }
    requires n_nonzero { (0 < n) × (well_formed_ranges (ranges_in pairs.now) count ≡ true) }
    ensures stays { (text : List ℕ) → result.stays ≡ keeps rule (take count (ranges_in pairs.now)) (item_of text (row_at words.now (word words.now at))) (items_by text words.now (at + 1) (n - 1)) }
    ensures ahead_next { (text : List ℕ) → Ahead rule result (items_by text words.now (at + 1) (n - 1)) }
{
    let j = words[at] as usize;
    let row = table::read_row(words, j);
    match rule {
        Rule::Started => Looked {
            stays: has_start(row),
            start: last.start,
            end: last.end,
        },
        Rule::Held => {
            let line = line_of(row);
            Looked {
                stays: line_num_pairs::holds_at(pairs, count, line, line),
                start: last.start,
                end: last.end,
            }
        }
        Rule::Until(bound) => {
            let start = start_line(row);
            let reckoned = reckon_end(words, start, at + 1, n - 1, bound, last);
            let end = end_of(row, reckoned);
            Looked {
                stays: line_num_pairs::holds_at(pairs, count, start, end),
                start,
                end: reckoned,
            }
        }
    }
}

// Of the n rows whose numbers are at word `numbers` on, moves the numbers of those that stay to the front, in order.
fn keep(
    words: &mut [u64],
    pairs: &[[u32; 2]],
    count: usize,
    numbers: usize,
    n: usize,
    rule: Rule,
) -> usize
    requires behind { (text : List ℕ) × Behind text words.old numbers n }
    requires count_value { well_formed_ranges (ranges_in pairs.now) count ≡ true }
    ensures { Chosen (chosen rule (take count (ranges_in pairs.now))) words.old words.new numbers n numbers result }
{
    let mut kept = 0;
    // before the first row: no start bounds a function that starts at 2^32 − 1
    let mut last = Looked {
        stays: false,
        start: u32::MAX,
        end: u32::MAX,
    };
    for i in 0..n {
        last = look(words, pairs, count, numbers + i, n - i, rule, last);
        if last.stays {
            words[numbers + kept] = words[numbers + i];
            kept += 1;
        }
    }
    kept
}

// "Branches and lines stay if their line is held": of n rows, the numbers of those that stay, copied to word `to` on.
fn keep_held(
    words: &mut [u64],
    pairs: &[[u32; 2]],
    count: usize,
    from: usize,
    n: usize,
    to: usize,
) -> usize
    requires behind { (text : List ℕ) × Behind text words.old from n }
    requires n_bound { (from + n ≤ to) × (to + n ≤ length words.old) × (well_formed_ranges (ranges_in pairs.now) count ≡ true) }
    ensures { Chosen (filter (is_held (take count (ranges_in pairs.now)))) words.old words.new from n to result }
{
    table::copy_words(words, from, to, n);
    keep(words, pairs, count, to, n, Rule::Held)
}

// "Functions without a start go. In printing order, a function ends one before the next start", or the next greater one.
fn keep_functions(
    text: &[u8],
    words: &mut [u64],
    pairs: &[[u32; 2]],
    count: usize,
    bound: Bound,
    index: usize,
    used: usize,
    from: usize,
    n: usize,
    spare: usize,
) -> usize
    requires { FunctionRows text.now words.old index used from n spare × (well_formed_ranges (ranges_in pairs.now) count ≡ true) }
    ensures most { result ≤ n }
    ensures rows { Holding text.now words.new spare result (functions_left bound (take count (ranges_in pairs.now)) (items_at text.now words.old index from n)) }
    ensures spared { UnchangedBefore words.old words.new spare }
{
    print_sort::sort_functions(text, words, index, used, from, n, spare);
    let started = keep(words, pairs, count, spare, n, Rule::Started);
    keep(words, pairs, count, spare, started, Rule::Until(bound))
}

// How many functions, branches and lines stay.
#[derive(Clone, Copy)]
struct Kept {
    functions: usize,
    branches: usize,
    lines: usize,
}

// What stays of a section whose functions start at place `from`: the numbers of its functions, branches and lines, one behind the other from
// word `spare` on.
fn keep_rows(
    text: &[u8],
    words: &mut [u64],
    pairs: &[[u32; 2]],
    count: usize,
    bound: Bound,
    index: usize,
    used: usize,
    n: usize,
    from: usize,
    runs: KindRanges,
    spare: usize,
) -> Kept
    requires { PrintableTable text.now words.old index used n spare × AreKindRanges words.old index n from runs × (well_formed_ranges (ranges_in pairs.now) count ≡ true) }
    ensures { KeptRows bound (take count (ranges_in pairs.now)) text.now words.old words.new index from spare runs result }
{
    let f = runs.functions;
    let b = runs.branches;
    let m = runs.lines - b;
    let functions = keep_functions(
        text,
        words,
        pairs,
        count,
        bound,
        index,
        used,
        from,
        f - from,
        spare,
    );
    let first = spare + functions;
    let branches = keep_held(words, pairs, count, index + f, b - f, first);
    let then = first + branches;
    let lines = keep_held(words, pairs, count, index + b, m, then);
    Kept {
        functions,
        branches,
        lines,
    }
}

// The lines of a section of which rows stay. "Emptied sections print TN, SF, end_of_record."
fn print_kept(
    tags: Tags,
    text: &[u8],
    words: &[u64],
    header: Row,
    numbers: usize,
    kept: Kept,
    out: &mut [u8],
    at: usize,
    write: bool,
) -> usize
    requires section_printable { SectionPrintable text.now words.now header numbers kept }
    requires room_for { RoomFor write out.old at (kept_lines (tag_of tags) text.now words.now header numbers kept) }
    ensures { Emitted write out.old out.new at (kept_lines (tag_of tags.entry) text.now words.now header numbers kept) result }
{
    let f = kept.functions;
    let b = kept.branches;
    let l = kept.lines;
    let first = numbers + f;
    let then = first + b;
    let start = print_rows::emit_head(tags, text, header, out, at, write);
    let functions = print_report::print_numbered(tags, text, words, numbers, f, out, start, write);
    let branches = print_rows::emit_group(
        tags,
        text,
        words,
        table_item::BRANCH,
        first,
        b,
        out,
        functions,
        write,
    );
    let lines = print_rows::emit_group(
        tags,
        text,
        words,
        table_item::LINE,
        then,
        l,
        out,
        branches,
        write,
    );
    print_rows::emit_end(tags, text, out, lines, write)
}

// Filters the section whose header row is at position lo.
fn filter_section(
    tags: Tags,
    text: &[u8],
    words: &mut [u64],
    pairs: &[[u32; 2]],
    count: usize,
    bound: Bound,
    index: usize,
    used: usize,
    n: usize,
    lo: usize,
    spare: usize,
    out: &mut [u8],
    at: usize,
    write: bool,
) -> Printed
    requires printable_table { PrintableTable text.now words.old index used n spare × (lo < n) × (kind_of (row words.old index lo) ≡ 0) }
    requires count_value { (well_formed_ranges (ranges_in pairs.now) count ≡ true) × RoomFor write out.old at (filtered_from (tag_of tags) bound (take count (ranges_in pairs.now)) text.now index n words.old lo) }
    ensures { SectionPrinted (filtered_from (tag_of tags.entry) bound (take count (ranges_in pairs.now)) text.now index n) write words.old words.new out.old out.new index n lo spare at result }
{
    let header = table::get(words, index, used, lo);
    let runs = print_report::find_kind_ranges(words, index, used, n, lo + 1);
    let next = runs.lines;
    let kept = keep_rows(
        text,
        words,
        pairs,
        count,
        bound,
        index,
        used,
        n,
        lo + 1,
        runs,
        spare,
    );
    let end = print_kept(tags, text, words, header, spare, kept, out, at, write);
    Printed { next, at: end }
}

// All sections, from the output's start on.
fn filter_sections(
    tags: Tags,
    text: &[u8],
    words: &mut [u64],
    pairs: &[[u32; 2]],
    count: usize,
    bound: Bound,
    index: usize,
    used: usize,
    n: usize,
    spare: usize,
    out: &mut [u8],
    write: bool,
) -> usize
    requires printable_table { PrintableTable text.now words.old index used n spare }
    requires count_value { (well_formed_ranges (ranges_in pairs.now) count ≡ true) × RoomFor write out.old 0 (filtered_from (tag_of tags) bound (take count (ranges_in pairs.now)) text.now index n words.old 0) }
    ensures emitted { Emitted write out.old out.new 0 (filtered_from (tag_of tags.entry) bound (take count (ranges_in pairs.now)) text.now index n words.old 0) result }
    ensures unchanged_before { UnchangedBefore words.old words.new spare }
{
    let mut lo = 0;
    let mut at = 0;
    // moves to the next section
    while lo < n {
        let done = filter_section(
            tags, text, words, pairs, count, bound, index, used, n, lo, spare, out, at, write,
        );
        lo = done.next;
        at = done.at;
    }
    at
}

// A length that is enough for the filtered report, as `print_report::required_len`: where all of the report fits, so does what stays of it.
fn required_len(
    tags: Tags,
    text: &[u8],
    words: &mut [u64],
    pairs: &[[u32; 2]],
    count: usize,
    bound: Bound,
    index: usize,
    used: usize,
    n: usize,
    spare: usize,
    out: &mut [u8],
) -> usize
    requires { PrintableTable text.now words.old index used n spare × (well_formed_ranges (ranges_in pairs.now) count ≡ true) }
    ensures required_length { RequiredLength out.old out.new (filtered_from (tag_of tags.entry) bound (take count (ranges_in pairs.now)) text.now index n words.old 0) result }
    ensures unchanged_before { UnchangedBefore words.old words.new spare }
{
    if print_bound::surely_fits(tags, words, index, used, n, out.len()) {
        return 0;
    }
    filter_sections(
        tags, text, words, pairs, count, bound, index, used, n, spare, out, false,
    )
}

// Prints the report of the first n rows, filtered by the first `count` pairs; the output and `spare` as for `print_report::print_report`.
pub fn print_filtered(
    tags: Tags,
    text: &[u8],
    words: &mut [u64],
    pairs: &[[u32; 2]],
    count: usize,
    bound: Bound,
    index: usize,
    used: usize,
    n: usize,
    spare: usize,
    out: &mut [u8],
) -> Result<usize, Refusal>
    requires table { Table text.now words.old index used n × (n ≤ max_entries) × (well_formed_ranges (ranges_in pairs.now) count ≡ true) }
    requires used_bound { (index + used ≤ spare) × (spare + n + n ≤ length words.old) }
    ensures value { result ≡ length_answer (written (length out.old) (print_sections (tag_of tags.entry) (map (filter_section bound (take count (ranges_in pairs.now))) (sections (entries_at text.now words.old index n))))) }
    ensures out_after { out.new ≡ output_after (written (length out.old) (print_sections (tag_of tags.entry) (map (filter_section bound (take count (ranges_in pairs.now))) (sections (entries_at text.now words.old index n))))) out.old }
{
    let needed = required_len(
        tags, text, words, pairs, count, bound, index, used, n, spare, out,
    );
    if out.len() < needed {
        return print_report::too_short(needed);
    }
    let len = filter_sections(
        tags, text, words, pairs, count, bound, index, used, n, spare, out, true,
    );
    Ok(len)
}
