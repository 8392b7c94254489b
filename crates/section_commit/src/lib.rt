// Commits a finished section to the kept ones: a sorted main part, a sorted delta behind it, and tombstones in main. A
// section whose key is the greatest is appended to main. One that replaces a section of main overwrites it in place if
// it fits there; main's rows of that key become tombstones. Any other section goes to the delta, which is merged into
// main when it exceeds DELTA_ENTRIES. Its insert position in main is searched once, at commit, and cached in k1 of the
// header row, which no header row uses otherwise.
#![tactic(auto)]

ghost use Rattle.std.specs.Prelude.{◌≡◌, ◌≢◌, true, ◌+◌, ◌-◌, ◌≤◌, ◌<◌, length};
ghost use Prim.Native.Nat.{Ordering};
ghost use Rattle.table.specs.Rows.{word};
ghost use Rattle.table.specs.Store.{row, Store};
ghost use Rattle.model.specs.Report.{compare_sections};
ghost use Rattle.table_tombstone.specs.Live.{is_live};
ghost use Rattle.table_item.specs.SortedItems.{SortedItems};
ghost use Rattle.table_section.specs.Sections.{key_of, NamesInBounds, rows_from, IsEqualRange};
ghost use Rattle.section_commit.specs.Commit.{with_position, SameNameBytes, Filled, KeptSections, PositionOf, PositionsWritten, MergedAndCompacted, SameReport, Committed};

use table::Row;
use table_section::{EqualRange, compare_sections, equal_range, header_row, splice};
use table_tombstone::mark_deleted;

// The number of rows in main and in the delta, and how many of main's are tombstones.
#[derive(Clone, Copy)]
pub struct KeptSizes {
    pub main: usize,
    pub delta: usize,
    pub tombstones: usize,
}

// The delta is merged when it has more entries than this.
pub const DELTA_ENTRIES: usize = 1024;

// A header row that caches its insert position in main, and as a hint how many items the section has.
fn with_position(key: Row, place: usize, n: usize) -> Row
    ensures { result ≡ with_position key place n }
{
    Row {
        k1: place as u64,
        k2: n as u64,
        ..key
    }
}

// The insert position in main of the delta's j-th entry. A header row has it cached; an item shares that of the entry
// before it, if that is of the same section.
fn position_of(
    text: &[u8],
    words: &[u64],
    index: usize,
    used: usize,
    spare: usize,
    kept: KeptSizes,
    j: usize,
) -> usize
    requires kept_sections { KeptSections text.now words.now index used kept × (j < kept.delta) × (spare + kept.delta ≤ length words.now) }
    requires position_of { 0 < j → PositionOf text.now words.now index kept.main (j - 1) (word words.now (spare + (j - 1))) }
    ensures { PositionOf text.now words.now index kept.main j result }
{
    let main = kept.main;
    let entry = table::get(words, index, used, main + j);
    if entry.tag / 2 == table_item::SECTION {
        return entry.k1 as usize;
    }
    if 0 < j {
        let before = table::get(words, index, used, main + (j - 1));
        if compare_sections(text, entry, before).is_eq() {
            return words[spare + (j - 1)] as usize;
        }
    }
    let range = equal_range(text, words, index, used, 0, main, entry);
    range.lo
}

// How far behind the delta's j-th entry one of the same section is: as many entries as its header row counts, if that one is. All between are
// of the section too, and are not read.
fn section_rest(
    text: &[u8],
    words: &[u64],
    index: usize,
    used: usize,
    kept: KeptSizes,
    j: usize,
) -> usize
    requires { KeptSections text.now words.now index used kept × (j < kept.delta) }
    ensures { (j + result < kept.delta) × (compare_sections (key_of text.now (rows_from words.now index kept.main j)) (key_of text.now (rows_from words.now index kept.main (j + result))) ≡ Ordering.eq) }
{
    let first = table::get(words, index, used, kept.main + j);
    if first.tag / 2 != table_item::SECTION {
        return 0;
    }
    let n = first.k2 as usize;
    if kept.delta - j <= n {
        return 0;
    }
    let last = table::get(words, index, used, kept.main + (j + n));
    if compare_sections(text, first, last).is_eq() {
        return n;
    }
    0
}

// Writes a number to n words.
fn fill(words: &mut [u64], at: usize, n: usize, value: u64)
    requires { at + n ≤ length words.old }
    ensures { Filled words.old words.new at n value }
{
    words[at..at + n].fill(value);
}

// Writes the delta's insert positions to the words from `spare` on, for many entries of a section at once.
fn write_positions(
    text: &[u8],
    words: &mut [u64],
    index: usize,
    used: usize,
    spare: usize,
    kept: KeptSizes,
)
    requires { KeptSections text.now words.old index used kept × (index + used ≤ spare) × (spare + kept.delta ≤ length words.old) }
    ensures { PositionsWritten text.now words.old words.new index spare kept.main kept.delta }
{
    let mut j = 0;
    // A `while`: it moves by the entries of a section.
    while j < kept.delta {
        let place = position_of(text, words, index, used, spare, kept, j);
        let rest = section_rest(text, words, index, used, kept, j);
        fill(words, spare + j, rest + 1, place as u64);
        j += rest + 1;
    }
}

// Merges the delta into main.
fn merge_delta(
    text: &[u8],
    words: &mut [u64],
    index: usize,
    used: usize,
    spare: usize,
    kept: KeptSizes,
) -> KeptSizes
    requires { KeptSections text.now words.old index used kept × (index + used ≤ spare) × (spare + used + used ≤ length words.old) }
    ensures same { SameReport text.now words.old words.new index used kept result }
    ensures none { (result.delta ≡ 0) × (result.tombstones ≡ kept.tombstones) }
{
    write_positions(text, words, index, used, spare, kept);
    table_interleave::interleave(words, index, used, 0, kept.main, kept.delta, spare);
    KeptSizes {
        main: kept.main + kept.delta,
        delta: 0,
        ..kept
    }
}

// Merges the delta into main and compacts the tombstones. Answers the number of entries.
pub fn merge_and_compact(
    text: &[u8],
    words: &mut [u64],
    index: usize,
    used: usize,
    spare: usize,
    kept: KeptSizes,
) -> usize
    requires { KeptSections text.now words.old index used kept × (index + used ≤ spare) × (spare + used + used ≤ length words.old) }
    ensures { MergedAndCompacted text.now words.old words.new index used kept result }
{
    let all = merge_delta(text, words, index, used, spare, kept);
    if all.tombstones == 0 {
        return all.main;
    }
    table_tombstone::compact(words, index, used, all.main, spare)
}

// Merges the delta when it is large, and compacts when there are more than `slack` tombstones.
fn maintain(
    text: &[u8],
    words: &mut [u64],
    index: usize,
    used: usize,
    spare: usize,
    kept: KeptSizes,
    slack: usize,
) -> KeptSizes
    requires { KeptSections text.now words.old index used kept × (index + used ≤ spare) × (spare + used + used ≤ length words.old) }
    ensures same { SameReport text.now words.old words.new index used kept result }
    ensures few { result.tombstones ≤ slack }
{
    if slack < kept.tombstones {
        let all = merge_and_compact(text, words, index, used, spare, kept);
        return KeptSizes {
            main: all,
            delta: 0,
            tombstones: 0,
        };
    }
    if DELTA_ENTRIES < kept.delta {
        return merge_delta(text, words, index, used, spare, kept);
    }
    kept
}

// True if the range is not empty and its first row is live: the delta then cannot contain the key.
fn is_live_at(words: &[u64], index: usize, used: usize, lo: usize, hi: usize) -> bool
    requires { Store words.now index used × (hi ≤ used) }
    ensures { result ≡ true → (lo < hi) × (is_live (row words.now index lo) ≡ true) }
{
    if hi <= lo {
        return false;
    }
    let first = table::get(words, index, used, lo);
    first.tag != table_item::TOMBSTONE
}

// Overwrites a live section of main that has the key and at least as many rows: its rows are marked deleted, and the
// open section takes the first of their positions. No other row moves.
fn commit_in_place(
    text: &[u8],
    words: &mut [u64],
    index: usize,
    used: usize,
    spare: usize,
    kept: KeptSizes,
    range: EqualRange,
    n: usize,
    key: Row,
) -> KeptSizes
    requires kept_sections { KeptSections text.now words.old index used kept × SortedItems text.now words.old index used (kept.main + kept.delta + 1) n × (n ≢ 0) }
    requires equal_range { IsEqualRange text.now (rows_from words.old index 0) kept.main (key_of text.now key) range.lo range.hi × (n + 1 ≤ range.hi - range.lo) }
    requires names_in_bounds { NamesInBounds text.now key × (key.tag ≡ 0) × (index + used ≤ spare) × (spare + used + used ≤ length words.old) }
    requires lo_value { is_live (row words.old index range.lo) ≡ true }
    ensures { Committed text.now words.old words.new index used kept n key result }
{
    let all = kept.main + kept.delta;
    let lo = range.lo;
    let header = header_row(words, index, used, 0, lo, range.hi, key);
    let deleted = kept.tombstones + mark_deleted(words, index, used, lo, range.hi);
    let taken = EqualRange {
        lo,
        hi: lo + (n + 1),
    };
    splice(words, index, used, spare, 0, all, taken, n, header);
    KeptSizes {
        tombstones: deleted - (n + 1),
        ..kept
    }
}

// Adds the open section to the delta, which does not have its key, at the insert position `position`. Rows of main that
// have the key are marked deleted.
fn commit_delta(
    text: &[u8],
    words: &mut [u64],
    index: usize,
    used: usize,
    spare: usize,
    kept: KeptSizes,
    range: EqualRange,
    position: usize,
    n: usize,
    key: Row,
) -> KeptSizes
    requires kept_sections { KeptSections text.now words.old index used kept × SortedItems text.now words.old index used (kept.main + kept.delta + 1) n × (n ≢ 0) }
    requires equal_range { IsEqualRange text.now (rows_from words.old index 0) kept.main (key_of text.now key) range.lo range.hi }
    requires delta_range { IsEqualRange text.now (rows_from words.old index kept.main) kept.delta (key_of text.now key) position position }
    requires names_in_bounds { NamesInBounds text.now key × (key.tag ≡ 0) × (index + used ≤ spare) × (spare + used + used ≤ length words.old) }
    ensures { Committed text.now words.old words.new index used kept n key result }
{
    let main = kept.main;
    let spelled = header_row(words, index, used, 0, range.lo, range.hi, key);
    let deleted = kept.tombstones + mark_deleted(words, index, used, range.lo, range.hi);
    let among = EqualRange {
        lo: position,
        hi: position,
    };
    let header = with_position(spelled, range.lo, n);
    let grown = splice(
        words, index, used, spare, main, kept.delta, among, n, header,
    );
    KeptSizes {
        main,
        delta: grown,
        tombstones: deleted,
    }
}

// Commits the open section where its key is not the greatest.
fn commit(
    text: &[u8],
    words: &mut [u64],
    index: usize,
    used: usize,
    spare: usize,
    kept: KeptSizes,
    range: EqualRange,
    n: usize,
    key: Row,
) -> KeptSizes
    requires kept_sections { KeptSections text.now words.old index used kept × SortedItems text.now words.old index used (kept.main + kept.delta + 1) n × (n ≢ 0) }
    requires equal_range { IsEqualRange text.now (rows_from words.old index 0) kept.main (key_of text.now key) range.lo range.hi }
    requires names_in_bounds { NamesInBounds text.now key × (key.tag ≡ 0) × (index + used ≤ spare) × (spare + used + used ≤ length words.old) }
    ensures { Committed text.now words.old words.new index used kept n key result }
{
    if n + 1 <= range.hi - range.lo {
        if is_live_at(words, index, used, range.lo, range.hi) {
            return commit_in_place(text, words, index, used, spare, kept, range, n, key);
        }
    }
    let main = kept.main;
    let delta = kept.delta;
    let among = equal_range(text, words, index, used, main, delta, key);
    if among.hi <= among.lo {
        return commit_delta(
            text, words, index, used, spare, kept, range, among.lo, n, key,
        );
    }
    let header = with_position(key, range.lo, n);
    let grown = splice(words, index, used, spare, main, delta, among, n, header);
    KeptSizes {
        delta: grown,
        ..kept
    }
}

// The section's key with the first kept row's offset of the test name, if the names are equal. Most texts have one test name: their
// rows then share its offset and are compared without reading it.
fn with_known_test(
    text: &[u8],
    words: &[u64],
    index: usize,
    used: usize,
    kept: KeptSizes,
    key: Row,
) -> Row
    requires { KeptSections text.now words.now index used kept × NamesInBounds text.now key }
    ensures { SameNameBytes text.now key result }
{
    if kept.main == 0 {
        return key;
    }
    let first = table::get(words, index, used, 0);
    let tests = table_item::compare_parts(text, first.test, first.test_len, key.test, key.test_len);
    if tests.is_eq() {
        return Row {
            test: first.test,
            test_len: first.test_len,
            ..key
        };
    }
    key
}

// Commits the open section of n items; an empty section is dropped. Leaves at most `slack` tombstones. Most texts have
// their sections in order: then every section is appended to main. `spare` is the offset of free words.
pub fn commit_section(
    text: &[u8],
    words: &mut [u64],
    index: usize,
    used: usize,
    spare: usize,
    kept: KeptSizes,
    n: usize,
    key: Row,
    slack: usize,
) -> KeptSizes
    requires kept_sections { KeptSections text.now words.old index used kept × SortedItems text.now words.old index used (kept.main + kept.delta + 1) n }
    requires names_in_bounds { NamesInBounds text.now key × (key.tag ≡ 0) × (index + used ≤ spare) × (spare + used + used ≤ length words.old) }
    requires tombstones_le_slack { kept.tombstones ≤ slack }
    ensures same { Committed text.now words.old words.new index used kept n key result }
    ensures few { result.tombstones ≤ slack }
{
    if n == 0 {
        return kept;
    }
    let main = kept.main;
    let known = with_known_test(text, words, index, used, kept, key);
    let range = equal_range(text, words, index, used, 0, main, known);
    if kept.delta == 0 {
        if range.lo == main {
            let grown = splice(words, index, used, spare, 0, main, range, n, known);
            return KeptSizes {
                main: grown,
                delta: 0,
                ..kept
            };
        }
    }
    let after = commit(text, words, index, used, spare, kept, range, n, known);
    maintain(text, words, index, used, spare, after, slack)
}
