// An upper bound of the bytes that a report prints, computed from its rows alone. Where the output is that long, no
// measuring pass is needed.
#![tactic(auto)]

ghost use Rattle.std.specs.Prelude.{◌≡◌, true, List, ℕ, ◌+◌, ◌≤◌, ◌<◌, min, length};
ghost use Rattle.table.specs.Store.{Store};
ghost use Rattle.model.specs.Limits.{u64_max};
ghost use Rattle.model.specs.Number.{decimal};
ghost use Rattle.table_section.specs.Sections.{entry_of};
ghost use Rattle.model.specs.declared.Kind.{Kind};
ghost use Rattle.model.specs.declared.Kind.TheVariants.{FunctionName, FunctionData};
ghost use Rattle.model.specs.Bytes.{Bytes};
ghost use Rattle.print_bound.specs.Bound.{entry_most, section_tags, WidthsOf, FitsBound};
ghost use Rattle.tag_table.specs.Tags.{tag_of};

use model::Kind;
use table::Row;
use tag_table::Tags;

// How many digits v has at most: one test, since most numbers of a report are small.
#[tactic(auto, using(crate::proofs::LengthLaws::five_digits))]
fn max_digits(v: u64) -> u64
    ensures { (length (decimal v) ≤ result) × (1 ≤ result) × (result ≤ 20) }
{
    if v < 100_000 {
        return 5;
    }
    20
}

// What FN and FNDA have besides two names, at most: their tags, three numbers and what is between them.
fn function_width(tags: Tags) -> u64
    ensures { result ≡ 67 + length (tag_of tags.entry FunctionName) + length (tag_of tags.entry FunctionData) }
{
    let start = tag_table::tag_len(tags, Kind::FunctionName);
    let calls = tag_table::tag_len(tags, Kind::FunctionData);
    (67 + start + calls) as u64
}

// What a section's own nine lines have besides its names, at most.
fn section_width(tags: Tags) -> u64
    ensures { result ≡ 47 + section_tags (tag_of tags.entry) }
{
    let names = tag_table::tag_len(tags, Kind::TestName)
        + tag_table::tag_len(tags, Kind::SourceFile);
    let functions = tag_table::tag_len(tags, Kind::FunctionsFound)
        + tag_table::tag_len(tags, Kind::FunctionsHit);
    let branches = tag_table::tag_len(tags, Kind::BranchesFound)
        + tag_table::tag_len(tags, Kind::BranchesHit);
    let lines = tag_table::tag_len(tags, Kind::LinesFound)
        + tag_table::tag_len(tags, Kind::LinesHit);
    let end = tag_table::tag_len(tags, Kind::EndOfRecord);
    (47 + names + functions + branches + lines + end) as u64
}

// What the lines of each kind of row have besides digits and texts, at most. It depends on the tags alone.
#[derive(Clone, Copy)]
struct Widths {
    line: u64,
    branch: u64,
    function: u64,
    section: u64,
}

fn widths_of(tags: Tags) -> Widths
    ensures { WidthsOf (tag_of tags.entry) result }
{
    Widths {
        line: 4 + tag_table::tag_len(tags, Kind::LineData) as u64,
        branch: 5 + tag_table::tag_len(tags, Kind::BranchData) as u64,
        function: function_width(tags),
        section: section_width(tags),
    }
}

// What comes of a row is at most so long: DA, BRDA, FN and FNDA, or all lines that a section has besides.
fn max_line_len(widths: Widths, row: Row) -> u64
    requires { (tag : Kind → Bytes) × WidthsOf tag widths }
    ensures { (tag : Kind → Bytes) → WidthsOf tag widths → (text : List ℕ) → min (entry_most tag (entry_of text row)) u64_max ≤ result }
{
    let kind = row.tag / 2;
    if table_item::BRANCH < kind {
        let numbers = widths.line + max_digits(row.k1) + max_digits(row.count);
        return row.k3.saturating_add(numbers);
    }
    if kind == table_item::BRANCH {
        let place = max_digits(row.k1) + max_digits(row.k2) + max_digits(row.k3);
        return widths.branch + place + max_digits(row.count);
    }
    if kind == table_item::FUNCTION {
        return row
            .k2
            .saturating_add(row.k2)
            .saturating_add(widths.function);
    }
    row.test_len
        .saturating_add(row.path_len)
        .saturating_add(widths.section)
}

// Whether all used rows print at most `room` bytes, in memory order, which is faster than index order. Every used row
// must be an entry: a row that is none may never have been written.
fn all_fit(tags: Tags, words: &[u64], index: usize, used: usize, room: usize) -> bool
    requires store { Store words.now index used × (room < u64_max) }
    ensures { FitsBound (tag_of tags.entry) words.now index used room result }
{
    let widths = widths_of(tags);
    let mut left = room as u64;
    for j in 0..used {
        let most = max_line_len(widths, table::read_row(words, j));
        let Some(rest) = left.checked_sub(most) else {
            return false;
        };
        left = rest;
    }
    true
}

// Whether the first n rows print at most `room` bytes, in index order: it reads no other row.
fn first_fit(tags: Tags, words: &[u64], index: usize, used: usize, n: usize, room: usize) -> bool
    requires store { Store words.now index used × (n ≤ used) × (room < u64_max) }
    ensures { FitsBound (tag_of tags.entry) words.now index n room result }
{
    let widths = widths_of(tags);
    let mut left = room as u64;
    for i in 0..n {
        let most = max_line_len(widths, table::get(words, index, used, i));
        let Some(rest) = left.checked_sub(most) else {
            return false;
        };
        left = rest;
    }
    true
}

// True only if the first n rows print at most `room` bytes; false does not show the contrary.
pub fn surely_fits(
    tags: Tags,
    words: &[u64],
    index: usize,
    used: usize,
    n: usize,
    room: usize,
) -> bool
    requires store { Store words.now index used × (n ≤ used) × (room < u64_max) }
    ensures { FitsBound (tag_of tags.entry) words.now index n room result }
{
    if n == used {
        return all_fit(tags, words, index, used, room);
    }
    first_fit(tags, words, index, used, n, room)
}
