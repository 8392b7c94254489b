// Prints the page of totals of a table: a line for each section in key order, and a last line of sums. A pass that measures comes first, with
// the same code.
#![tactic(auto)]

ghost use Rattle.std.specs.Prelude.{◌≡◌, List, ◌∷◌, ℕ, ◌+◌, ◌-◌, ◌≤◌, ◌<◌, length};
ghost use Rattle.table.specs.Store.{row};
ghost use Rattle.model.specs.Calls.{length_answer};
ghost use Rattle.model.specs.Limits.{max_entries};
ghost use Rattle.model.specs.Output.{written, output_after};
ghost use Rattle.table_item.specs.Items.{part, kind_of};
ghost use Rattle.table_section.specs.Sections.{entries_at};
ghost use Rattle.section.specs.Table.{Table};
ghost use Rattle.format.specs.Put.{over};
ghost use Rattle.print_rows.specs.Emit.{RoomFor, Emitted, Numbered};
ghost use Rattle.print_report.specs.Printing.{AreKindRanges};
ghost use Rattle.model_totals.specs.Totals.{blank, add_totals, print_share, share, columns, last_totals, page};
ghost use Rattle.print_totals.specs.Counting.{max_columns, AtMost, RangeCounted, SectionCounted, ratio_columns, line_columns, name_columns, lines_from, page_at, LinePrinted};

use model::Refusal;
use model_totals::{Ratio, Totals};
use print_report::KindRanges;
use table::Row;

// The most bytes that the columns have, with a blank before them: `max_columns`.
const MAX_COLUMNS: usize = 147;

// Hit and found of the rows from a position up to another.
fn count_range(words: &[u64], index: usize, from: usize, to: usize) -> Ratio
    requires { Numbered words.now (index + from) (to - from) × (from ≤ to) × (to ≤ max_entries) }
    ensures { (text : List ℕ) → RangeCounted text words.now index from to result }
{
    let n = to - from;
    let hit = print_rows::count_hits(words, index + from, n);
    Ratio {
        hit: hit as u64,
        found: n as u64,
    }
}

// Hit and found of the functions, branches and lines of a section whose items begin at a position.
fn count_section(words: &[u64], index: usize, n: usize, from: usize, runs: KindRanges) -> Totals
    requires { Numbered words.now index n × (n ≤ max_entries) × AreKindRanges words.now index n from runs }
    ensures { (text : List ℕ) → SectionCounted text words.now index from runs result }
{
    let functions = runs.functions;
    let branches = runs.branches;
    Totals {
        functions: count_range(words, index, from, functions),
        branches: count_range(words, index, functions, branches),
        lines: count_range(words, index, branches, runs.lines),
    }
}

fn add_ratios(a: Ratio, b: Ratio) -> Ratio
    requires { (a.hit + b.hit ≤ max_entries) × (a.found + b.found ≤ max_entries) }
    ensures { (result.hit ≡ a.hit + b.hit) × (result.found ≡ a.found + b.found) }
{
    Ratio {
        hit: a.hit + b.hit,
        found: a.found + b.found,
    }
}

fn add_totals(a: Totals, b: Totals) -> Totals
    requires { AtMost max_entries (add_totals a b) }
    ensures { result ≡ add_totals a b }
{
    Totals {
        functions: add_ratios(a.functions, b.functions),
        branches: add_ratios(a.branches, b.branches),
        lines: add_ratios(a.lines, b.lines),
    }
}

// Hit and found of all sections of the first n rows, all of which are entries.
pub fn count_totals(words: &[u64], index: usize, n: usize) -> Totals
    requires { ((text : List ℕ) × Table text words.now index n n) × (n ≤ max_entries) }
    ensures { (text : List ℕ) → Table text words.now index n n → result ≡ last_totals (entries_at text words.now index n) }
{
    let mut sums = Totals {
        functions: Ratio { hit: 0, found: 0 },
        branches: Ratio { hit: 0, found: 0 },
        lines: Ratio { hit: 0, found: 0 },
    };
    let mut lo = 0;
    // moves to the next section
    while lo < n {
        let runs = print_report::find_kind_ranges(words, index, n, n, lo + 1);
        let totals = count_section(words, index, n, lo + 1, runs);
        sums = add_totals(sums, totals);
        lo = runs.lines;
    }
    sums
}

// A blank and the share at the front of out. "1000 times hit, divided by found; `-` where found is 0"
fn put_share(lines: Ratio, out: &mut [u8]) -> usize
    requires { (lines.hit ≤ max_entries) × (21 ≤ length out.old) }
    ensures { (result ≡ 1 + length (print_share (share lines))) × (out.new ≡ over (blank ∷ print_share (share lines)) out.old) }
{
    if lines.found == 0 {
        return format::put_bytes(b" -", out);
    }
    format::put_number(b' ', 1000 * lines.hit / lines.found, out)
}

// A blank before each of the lines' two columns, at the front of out.
fn put_lines(lines: Ratio, out: &mut [u8]) -> usize
    requires { (lines.hit ≤ max_entries) × (63 ≤ length out.old) }
    ensures { (result ≡ length (line_columns lines)) × (out.new ≡ over (line_columns lines) out.old) }
{
    let at = format::put_pair(b' ', lines.hit, b'/', lines.found, out);
    let n = put_share(lines, &mut out[at..]);
    at + n
}

// Two columns of hit and found, a blank before each, at the front of out.
fn put_ratios(a: Ratio, b: Ratio, out: &mut [u8]) -> usize
    requires { 84 ≤ length out.old }
    ensures { (result ≡ length (ratio_columns a b)) × (out.new ≡ over (ratio_columns a b) out.old) }
{
    let at = format::put_pair(b' ', a.hit, b'/', a.found, out);
    let n = format::put_pair(b' ', b.hit, b'/', b.found, &mut out[at..]);
    at + n
}

// The columns with a blank before them, at the front of out.
fn put_columns(totals: Totals, out: &mut [u8]) -> usize
    requires { AtMost max_entries totals × (max_columns ≤ length out.old) }
    ensures { (result ≡ 1 + length (columns totals)) × (out.new ≡ over (blank ∷ columns totals) out.old) }
{
    let at = put_ratios(totals.functions, totals.branches, out);
    let n = put_lines(totals.lines, &mut out[at..]);
    at + n
}

// The columns of a line.
fn emit_columns(totals: Totals, out: &mut [u8], at: usize, write: bool) -> usize
    requires { AtMost max_entries totals × RoomFor write out.old at (columns totals) }
    ensures { Emitted write out.old out.new at (columns totals) result }
{
    let mut line = [0u8; MAX_COLUMNS];
    let n = put_columns(totals, &mut line);
    print_rows::emit_bytes(&line[1..n], out, at, write)
}

// A blank and a name.
fn emit_name(text: &[u8], start: u64, len: u64, out: &mut [u8], at: usize, write: bool) -> usize
    requires { (start + len ≤ length text.now) × RoomFor write out.old at (blank ∷ part text.now start len) }
    ensures { Emitted write out.old out.new at (blank ∷ part text.now start len) result }
{
    let next = print_rows::emit_bytes(b" ", out, at, write);
    let from = start as usize;
    let end = from + len as usize;
    print_rows::emit_bytes(&text[from..end], out, next, write)
}

// Test name and path of a section's header row, and byte 10.
fn emit_names(text: &[u8], header: Row, out: &mut [u8], at: usize, write: bool) -> usize
    requires test_len_in_bounds { (header.test + header.test_len ≤ length text.now) × (header.path + header.path_len ≤ length text.now) }
    requires room_for { RoomFor write out.old at (name_columns text.now header) }
    ensures { Emitted write out.old out.new at (name_columns text.now header) result }
{
    let test = emit_name(text, header.test, header.test_len, out, at, write);
    let path = emit_name(text, header.path, header.path_len, out, test, write);
    print_rows::emit_bytes(b"\n", out, path, write)
}

// The position of the next section, the offset in the output, and the numbers of the section.
#[derive(Clone, Copy)]
pub struct Line {
    pub next: usize,
    pub at: usize,
    pub totals: Totals,
}

// The line of the section whose header row is at position lo.
fn print_line(
    text: &[u8],
    words: &[u64],
    index: usize,
    n: usize,
    lo: usize,
    out: &mut [u8],
    at: usize,
    write: bool,
) -> Line
    requires table { Table text.now words.now index n n × (n ≤ max_entries) × (lo < n) × (kind_of (row words.now index lo) ≡ 0) }
    requires room_for { RoomFor write out.old at (lines_from text.now words.now index n lo) }
    ensures { LinePrinted write text.now words.now out.old out.new index n lo at result }
{
    let header = table::get(words, index, n, lo);
    let runs = print_report::find_kind_ranges(words, index, n, n, lo + 1);
    let next = runs.lines;
    let totals = count_section(words, index, n, lo + 1, runs);
    let named = emit_columns(totals, out, at, write);
    let end = emit_names(text, header, out, named, write);
    Line {
        next,
        at: end,
        totals,
    }
}

// All lines, from the output's start on.
fn print_lines(
    text: &[u8],
    words: &[u64],
    index: usize,
    n: usize,
    out: &mut [u8],
    write: bool,
) -> usize
    requires table { Table text.now words.now index n n × (n ≤ max_entries) }
    requires room_for { RoomFor write out.old 0 (page_at text.now words.now index n) }
    ensures { Emitted write out.old out.new 0 (page_at text.now words.now index n) result }
{
    let mut sums = Totals {
        functions: Ratio { hit: 0, found: 0 },
        branches: Ratio { hit: 0, found: 0 },
        lines: Ratio { hit: 0, found: 0 },
    };
    let mut lo = 0;
    let mut at = 0;
    // moves to the next section
    while lo < n {
        let line = print_line(text, words, index, n, lo, out, at, write);
        sums = add_totals(sums, line.totals);
        lo = line.next;
        at = line.at;
    }
    let end = emit_columns(sums, out, at, write);
    print_rows::emit_bytes(b"\n", out, end, write)
}

// Prints the page of the first n rows, all of which are entries. An output that is too short stays.
pub fn print_page(
    text: &[u8],
    words: &[u64],
    index: usize,
    n: usize,
    out: &mut [u8],
) -> Result<usize, Refusal>
    requires { Table text.now words.now index n n × (n ≤ max_entries) }
    ensures value { result ≡ length_answer (written (length out.old) (page (entries_at text.now words.now index n))) }
    ensures out_after { out.new ≡ output_after (written (length out.old) (page (entries_at text.now words.now index n))) out.old }
{
    let needed = print_lines(text, words, index, n, out, false);
    if out.len() < needed {
        return print_report::too_short(needed);
    }
    let len = print_lines(text, words, index, n, out, true);
    Ok(len)
}
