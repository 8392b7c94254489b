// The items of the open section (SPEC 3.3): rows in the order of an index, ascending by key. A row's names are parts of
// the lent text, so a row means an item only together with the text.
#![tactic(auto)]

ghost use Rattle.std.specs.Prelude.{◌≡◌, true, List, length};
ghost use Rattle.std.proofs.Math.Option.{none, some};
ghost use Prim.Native.Nat.{ℕ, ◌+◌, ◌≤◌, ◌<◌, compare};
ghost use Rattle.std.proofs.Math.Dec.{compare_is_eq};
ghost use Rattle.ordmap.specs.Compare.{lex};
ghost use Rattle.model.specs.Order.{is_less};
ghost use Rattle.model.specs.Bytes.{compare_bytes};
ghost use Rattle.model.specs.Report.{extent_at, function_of, function_item, branch_item, line_item, extent_of, end_of, compare_items};
ghost use Rattle.model.specs.Parts.{given_in};
ghost use Rattle.compare.specs.Orders.{order_of};
ghost use Rattle.table.specs.Places.{PartitionPoint};
ghost use Rattle.table_item.specs.Items.{part, extent_tag, extent_word, start_key, item_of, ItemInBounds, ItemRow, part_in, PartInside, checksum_part, ChecksumInside, item_row, Makes};
ghost use Rattle.table_item.specs.SortedItems.{item_from, SortedItems, FoundPlace};
ghost use Rattle.table_item.specs.Combining.{Adds, combine_of, seen_one, InnerOne, is_calls};

use model::Part;
use std::cmp::Ordering;
use table::Row;

// The kinds of a row; a section's header row is the first. The tag is twice the kind, plus one where the end line,
// the taken count or the checksum is given.
pub const SECTION: u64 = 0;

pub const FUNCTION: u64 = 1;

pub const BRANCH: u64 = 2;

pub const LINE: u64 = 3;

// The tag of a deleted row. No live row has it, since a header row has no optional value: `tombstone_tag` in
// specs/Items.antt.
pub const TOMBSTONE: u64 = 1;

// So many lines have numbers: `line_numbers` in specs/Items.antt.
const LINE_NUMBERS: u64 = 4294967296;

// The tag of a function that FN names: whether an end line is given.
fn extent_tag(end: Option<u32>) -> u64
    ensures { result ≡ extent_tag end }
{
    match end {
        Some(_line) => FUNCTION * 2 + 1,
        None => FUNCTION * 2,
    }
}

// Start and end line as one word. The tag says which of the two forms it has.
fn extent_word(start: u32, end: Option<u32>) -> u64
    ensures { result ≡ extent_word start end }
{
    match end {
        Some(line) => start as u64 + line as u64 * LINE_NUMBERS,
        None => start as u64 + 1,
    }
}

// "FN:10,main", "FN:10,12,main"
pub fn start_row(name: Part, start: u32, end: Option<u32>) -> Row
    ensures { Makes result (λ text. function_item (function_of (part_in text name) (some (extent_at start (given_in end))) 0)) (λ text. PartInside text name) }
{
    item_row(
        extent_tag(end),
        name.start as u64,
        name.len as u64,
        extent_word(start, end),
        0,
    )
}

// 0 where there is no start line, and otherwise one more than that line.
pub fn start_key(row: Row) -> u64
    ensures { (text : List ℕ) → result ≡ start_key (extent_of (item_of text row)) }
{
    if row.tag / 2 != FUNCTION {
        return 0;
    }
    if row.tag % 2 == 0 {
        return row.k3;
    }
    row.k3 % LINE_NUMBERS + 1
}

// The line where FN says that a function ends.
pub fn end_line(row: Row) -> Option<u32>
    ensures { (text : List ℕ) → given_in result ≡ end_of (item_of text row) }
{
    if row.tag != FUNCTION * 2 + 1 {
        return None;
    }
    Some((row.k3 / LINE_NUMBERS) as u32)
}

// "FNDA:1,main"
pub fn calls_row(name: Part, count: u64) -> Row
    ensures { Makes result (λ text. function_item (function_of (part_in text name) none count)) (λ text. PartInside text name) }
{
    item_row(FUNCTION * 2, name.start as u64, name.len as u64, 0, count)
}

// Whether the row is that of an FNDA line: a function of which no FN is known.
pub fn is_calls(row: Row) -> bool
    ensures { (text : List ℕ) → result ≡ is_calls (item_of text row) }
{
    if row.tag != FUNCTION * 2 {
        return false;
    }
    row.k3 == 0
}

// "BRDA:10,0,1,5"
pub fn branch_row(line: u32, block: u32, branch: u32, taken: Option<u64>) -> Row
    ensures { Makes result (λ text. branch_item line block branch (given_in taken)) (λ text. Unit {0}) }
{
    match taken {
        Some(count) => item_row(
            BRANCH * 2 + 1,
            line as u64,
            block as u64,
            branch as u64,
            count,
        ),
        None => item_row(BRANCH * 2, line as u64, block as u64, branch as u64, 0),
    }
}

// "DA:10,5,1B2M2Y8A"
pub fn line_row(line: u32, count: u64, checksum: Option<Part>) -> Row
    ensures { Makes result (λ text. line_item line count (checksum_part text checksum)) (λ text. ChecksumInside text checksum) }
{
    match checksum {
        Some(part) => item_row(
            LINE * 2 + 1,
            line as u64,
            part.start as u64,
            part.len as u64,
            count,
        ),
        None => item_row(LINE * 2, line as u64, 0, 0, count),
    }
}

// A row whose section is still open: test name and path come when it ends.
fn item_row(tag: u64, k1: u64, k2: u64, k3: u64, count: u64) -> Row
    ensures { result ≡ item_row tag k1 k2 k3 count }
{
    Row {
        tag,
        k1,
        k2,
        k3,
        count,
        ..Row::default()
    }
}

// Compares two parts of the text by bytes. Equal parts at one offset are not read.
pub fn compare_parts(text: &[u8], a: u64, n: u64, b: u64, m: u64) -> Ordering
    requires { (a + n ≤ length text.now) × (b + m ≤ length text.now) }
    ensures { order_of result ≡ compare_bytes (part text.now a n) (part text.now b m) }
{
    if a == b && n == m {
        return Ordering::Equal;
    }
    let p = a as usize;
    let q = b as usize;
    compare::compare_bytes(&text[p..p + (n as usize)], &text[q..q + (m as usize)])
}

// By kind, then functions by name, branches by line, block and branch, lines by number.
pub fn compare_items(text: &[u8], x: Row, y: Row) -> Ordering
    requires { ItemInBounds text.now x × ItemInBounds text.now y }
    ensures { order_of result ≡ compare_items (item_of text.now x) (item_of text.now y) }
{
    let kind = x.tag / 2;
    let other = y.tag / 2;
    if kind < other {
        return Ordering::Less;
    }
    if other < kind {
        return Ordering::Greater;
    }
    if kind == FUNCTION {
        return compare_parts(text, x.k1, x.k2, y.k1, y.k2);
    }
    if kind == BRANCH {
        let last = x.k2.cmp(&y.k2).then(x.k3.cmp(&y.k3));
        return x.k1.cmp(&y.k1).then(last);
    }
    if kind == LINE {
        return x.k1.cmp(&y.k1);
    }
    Ordering::Equal
}

// Whether x comes before y, both being branches.
fn branch_before(x: Row, y: Row) -> bool
    ensures { result ≡ is_less (lex (compare x.k1 y.k1) (lex (compare x.k2 y.k2) (compare x.k3 y.k3))) }
{
    if x.k1 != y.k1 {
        return x.k1 < y.k1;
    }
    if x.k2 != y.k2 {
        return x.k2 < y.k2;
    }
    x.k3 < y.k3
}

// Whether x comes before y. Two lines and two branches are compared at once: a text has more of them than of all else.
pub fn comes_before(text: &[u8], x: Row, y: Row) -> bool
    requires { ItemInBounds text.now x × ItemInBounds text.now y }
    ensures { result ≡ is_less (compare_items (item_of text.now x) (item_of text.now y)) }
{
    if x.tag / 2 == LINE && y.tag / 2 == LINE {
        return x.k1 < y.k1;
    }
    if x.tag / 2 == BRANCH && y.tag / 2 == BRANCH {
        return branch_before(x, y);
    }
    compare_items(text, x, y).is_lt()
}

// Binary search: how many of the n items from position `at` on come before the key.
fn lower_bound_item(
    text: &[u8],
    words: &[u64],
    index: usize,
    used: usize,
    at: usize,
    n: usize,
    key: Row,
) -> usize
    requires { SortedItems text.now words.now index used at n × ItemInBounds text.now key }
    ensures { PartitionPoint (λ k. is_less (compare_items (item_from text.now words.now index at k) (item_of text.now key))) n result }
{
    let mut lo = 0;
    let mut hi = n;
    // A `while`: it halves a range, and counts nothing.
    while lo < hi {
        let mid = lo + (hi - lo) / 2;
        let other = table::get(words, index, used, at + mid);
        if comes_before(text, other, key) {
            lo = mid + 1;
        } else {
            hi = mid;
        }
    }
    lo
}

// Whether the i-th of the n items from place `at` on has the key.
fn has_key(
    text: &[u8],
    words: &[u64],
    index: usize,
    used: usize,
    at: usize,
    n: usize,
    i: usize,
    key: Row,
) -> bool
    requires { SortedItems text.now words.now index used at n × ItemInBounds text.now key }
    ensures { result ≡ true → (i < n) × (compare_is_eq (compare_items (item_of text.now key) (item_from text.now words.now index at i)) ≡ true) }
{
    if n <= i {
        return false;
    }
    let here = table::get(words, index, used, at + i);
    compare_items(text, key, here).is_eq()
}

// The key's place among the n items from place `at` on: its position, or as an error its insert position. Position `hint` is tried first.
// Most texts are sorted, so that the key comes after the last or is the last: tried next.
pub fn find_item(
    text: &[u8],
    words: &[u64],
    index: usize,
    used: usize,
    at: usize,
    n: usize,
    hint: usize,
    key: Row,
) -> Result<usize, usize>
    requires { SortedItems text.now words.now index used at n × ItemInBounds text.now key }
    ensures { FoundPlace text.now words.now index at n (item_of text.now key) result }
{
    if has_key(text, words, index, used, at, n, hint, key) {
        return Ok(hint);
    }
    if n == 0 {
        return Err(0);
    }
    let last = table::get(words, index, used, at + (n - 1));
    if comes_before(text, last, key) {
        return Err(n);
    }
    if compare_items(text, key, last).is_eq() {
        return Ok(n - 1);
    }
    let i = lower_bound_item(text, words, index, used, at, n - 1, key);
    let here = table::get(words, index, used, at + i);
    if compare_items(text, key, here).is_eq() {
        return Ok(i);
    }
    Err(i)
}

// What two rows of one key make, none where their counts do not add: FNDA adds to a function's count, any other row takes the place of the
// earlier one.
pub fn combine(old: Row, row: Row, accumulate: bool) -> Option<Row>
    requires { Adds accumulate row }
    ensures item { (text : List ℕ) → seen_one text result ≡ combine_of accumulate (item_of text old) (item_of text row) }
    ensures inner { (text : List ℕ) → ItemRow text old → ItemRow text row → InnerOne text result }
{
    if !accumulate {
        return Some(row);
    }
    if old.tag / 2 != FUNCTION {
        return Some(row);
    }
    let count = old.count.checked_add(row.count)?;
    Some(Row { count, ..old })
}
