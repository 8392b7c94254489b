// Sections as ranges of rows: comparison, equal range, splice. "A section whose key (test name, path) a kept section
// has replaces that section's data, and the key's first spelling stays" (SPEC 3.4). The index holds the kept entries
// first: main, then the delta (crate section_commit). The open section's header row and its items follow, then free
// rows.
#![tactic(auto)]

ghost use Rattle.std.specs.Prelude.{◌≡◌, ◌≢◌, true, false, ◌+◌, ◌-◌, ◌≤◌, ◌<◌, length};
ghost use Prim.Native.Nat.{Ordering as Compared};
ghost use Rattle.model.specs.Path.{components, compare_paths};
ghost use Rattle.model.specs.Report.{compare_sections};
ghost use Rattle.compare.specs.Orders.{order_of};
ghost use Rattle.table.specs.Places.{Unchanged, PartitionPoint, SearchBounds};
ghost use Rattle.table.specs.Store.{Store, row};
ghost use Rattle.table_item.specs.Items.{part};
ghost use Rattle.table_section.specs.Sections.{key_of, NamesInBounds, rows_from, SectionsFrom, is_past, PastRow, IsEqualRange};
ghost use Rattle.table_section.specs.Splice.{with_section, SectionSet, HeaderRow, Spliced};

use std::cmp::Ordering;
use table::Row;

// Compares two parts of the text as paths. Equal parts at one offset are not read. It differs from `table_item::compare_parts` in the
// comparison called: one function for both would take that as an argument, and be no plainer.
fn compare_path_parts(text: &[u8], a: u64, n: u64, b: u64, m: u64) -> Ordering
    requires { (a + n ≤ length text.now) × (b + m ≤ length text.now) }
    ensures { order_of result ≡ compare_paths (components (part text.now a n)) (components (part text.now b m)) }
{
    if a == b && n == m {
        return Ordering::Equal;
    }
    let p = a as usize;
    let q = b as usize;
    compare::compare_paths(&text[p..p + (n as usize)], &text[q..q + (m as usize)])
}

// Compares by test name, then by path.
pub fn compare_sections(text: &[u8], x: Row, y: Row) -> Ordering
    requires { NamesInBounds text.now x × NamesInBounds text.now y }
    ensures { order_of result ≡ compare_sections (key_of text.now x) (key_of text.now y) }
{
    let tests = table_item::compare_parts(text, x.test, x.test_len, y.test, y.test_len);
    if tests.is_eq() {
        return compare_path_parts(text, x.path, x.path_len, y.path, y.path_len);
    }
    tests
}

// A key is past an entry that is less, and past one that is equal if `equal`.
fn is_past(order: Ordering, equal: bool) -> bool
    ensures { result ≡ is_past equal (order_of order) }
{
    match order {
        Ordering::Less => false,
        Ordering::Equal => equal,
        Ordering::Greater => true,
    }
}

// Binary search: how many of the n entries from position `at` on the key is past. It is past the first `from`, and past
// none from `to` on.
fn partition_point(
    text: &[u8],
    words: &[u64],
    index: usize,
    used: usize,
    at: usize,
    n: usize,
    from: usize,
    to: usize,
    key: Row,
    equal: bool,
) -> usize
    requires sections_from { SectionsFrom text.now words.now index used at n × NamesInBounds text.now key }
    requires search_bounds { SearchBounds (PastRow equal text.now (rows_from words.now index at) (key_of text.now key)) n from to }
    ensures { PartitionPoint (PastRow equal text.now (rows_from words.now index at) (key_of text.now key)) n result }
{
    let mut lo = from;
    let mut hi = to;
    // A `while`: it halves a range, and counts nothing.
    while lo < hi {
        let mid = lo + (hi - lo) / 2;
        let other = table::get(words, index, used, at + mid);
        if is_past(compare_sections(text, key, other), equal) {
            lo = mid + 1;
        } else {
            hi = mid;
        }
    }
    lo
}

// The end of the equal range of a key that is past the first `from` entries. Most sections are small compared with all
// kept entries, so the search gallops before it bisects.
fn upper_bound(
    text: &[u8],
    words: &[u64],
    index: usize,
    used: usize,
    at: usize,
    n: usize,
    from: usize,
    key: Row,
) -> usize
    requires sections_from { SectionsFrom text.now words.now index used at n × NamesInBounds text.now key }
    requires search_bounds { SearchBounds (PastRow true text.now (rows_from words.now index at) (key_of text.now key)) n from n }
    ensures { PartitionPoint (PastRow true text.now (rows_from words.now index at) (key_of text.now key)) n result }
{
    let mut lo = from;
    let mut step = 1;
    // A `while`: its step doubles.
    while step <= n - lo {
        let last = lo + (step - 1);
        let other = table::get(words, index, used, at + last);
        if is_past(compare_sections(text, key, other), true) {
            lo = last + 1;
            step += step;
        } else {
            return partition_point(text, words, index, used, at, n, lo, last, key, true);
        }
    }
    partition_point(text, words, index, used, at, n, lo, n, key, true)
}

// Positions lo up to hi, not including hi.
#[derive(Clone, Copy)]
pub struct EqualRange {
    pub lo: usize,
    pub hi: usize,
}

// Whether the i-th of the n entries from position `at` on exists and has the key.
fn has_key(
    text: &[u8],
    words: &[u64],
    index: usize,
    used: usize,
    at: usize,
    n: usize,
    i: usize,
    key: Row,
) -> bool
    requires { SectionsFrom text.now words.now index used at n × NamesInBounds text.now key }
    ensures same { result ≡ true → (i < n) × (compare_sections (key_of text.now key) (key_of text.now (rows_from words.now index at i)) ≡ Compared.eq) }
    ensures other { result ≡ false → i < n → compare_sections (key_of text.now key) (key_of text.now (rows_from words.now index at i)) ≢ Compared.eq }
{
    if n <= i {
        return false;
    }
    let other = table::get(words, index, used, at + i);
    compare_sections(text, key, other).is_eq()
}

// The equal range of a key among the n entries from position `at` on. It tries the last entry first, since most texts have their
// sections in order, then the first entry, since some have them in descending order. Most keys are new.
pub fn equal_range(
    text: &[u8],
    words: &[u64],
    index: usize,
    used: usize,
    at: usize,
    n: usize,
    key: Row,
) -> EqualRange
    requires { SectionsFrom text.now words.now index used at n × NamesInBounds text.now key }
    ensures { IsEqualRange text.now (rows_from words.now index at) n (key_of text.now key) result.lo result.hi }
{
    if n == 0 {
        return EqualRange { lo: 0, hi: 0 };
    }
    let last = table::get(words, index, used, at + (n - 1));
    if is_past(compare_sections(text, key, last), false) {
        return EqualRange { lo: n, hi: n };
    }
    let first = table::get(words, index, used, at);
    if compare_sections(text, key, first).is_lt() {
        return EqualRange { lo: 0, hi: 0 };
    }
    let lo = partition_point(text, words, index, used, at, n, 0, n, key, false);
    if has_key(text, words, index, used, at, n, lo, key) {
        // rows of one section have their names at the same offsets, so they are recognised without reading the names
        let same = table::get(words, index, used, at + lo);
        let hi = upper_bound(text, words, index, used, at, n, lo + 1, same);
        return EqualRange { lo, hi };
    }
    EqualRange { lo: lo, hi: lo }
}

// A row with the section's test name and path.
pub fn with_section(row: Row, key: Row) -> Row
    ensures { result ≡ with_section row key }
{
    Row {
        test: key.test,
        test_len: key.test_len,
        path: key.path,
        path_len: key.path_len,
        ..row
    }
}

// Gives the n rows from position `from` on the section's test name and path.
fn set_section(words: &mut [u64], index: usize, used: usize, from: usize, n: usize, key: Row)
    requires { Store words.old index used × (from + n ≤ used) }
    ensures { SectionSet words.old words.new index used from n key }
{
    for i in 0..n {
        let old = table::get(words, index, used, from + i);
        table::put(words, index, used, from + i, with_section(old, key));
    }
}

// The tag of a live header row; the other tag of its kind marks a deleted row (crate table_tombstone).
const HEADER_TAG: u64 = 0;

// The section's header row: the key, with the path's spelling of the section that it replaces. The rows from lo up to
// hi have its key, and the first of them is that section's header row. Positions count from `at` on.
pub fn header_row(
    words: &[u64],
    index: usize,
    used: usize,
    at: usize,
    lo: usize,
    hi: usize,
    key: Row,
) -> Row
    requires { Store words.now index used × (at + hi ≤ used) }
    ensures { HeaderRow (rows_from words.now index at lo) lo hi key result }
{
    if hi <= lo {
        return key;
    }
    let first = table::get(words, index, used, at + lo);
    if first.tag != HEADER_TAG {
        return key;
    }
    Row {
        path: first.path,
        path_len: first.path_len,
        ..key
    }
}

// Splices the open section, whose header row and n items follow the m entries from position `at` on, into these, in
// place of those in `range`. Answers the new number of entries. `spare` is the offset of free words.
pub fn splice(
    words: &mut [u64],
    index: usize,
    used: usize,
    spare: usize,
    at: usize,
    m: usize,
    range: EqualRange,
    n: usize,
    key: Row,
) -> usize
    requires store { Store words.old index used × (range.lo ≤ range.hi) × (range.hi ≤ m) × (at + m + 1 + n ≤ used) }
    requires used_bound { (index + used ≤ spare) × (spare + used ≤ length words.old) }
    ensures store { Store words.new index used }
    ensures rows { Spliced (rows_from words.old index at) (rows_from words.new index at) m m n range.lo range.hi key }
    ensures below { Unchanged (row words.old index) (row words.new index) 0 at }
    ensures number { result ≡ range.lo + (n + 1) + (m - range.hi) }
{
    let lo = range.lo;
    let hi = range.hi;
    let header = header_row(words, index, used, at, lo, hi, key);
    table::put(words, index, used, at + m, header);
    set_section(words, index, used, at + m + 1, n, key);
    let number = lo + (n + 1) + (m - hi);
    if m <= lo {
        return number;
    }
    table::swap_blocks(
        words,
        index,
        used,
        at + lo,
        at + hi,
        at + m,
        at + m + 1 + n,
        spare,
    );
    number
}
