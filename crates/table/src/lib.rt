// A table: rows in a lent slice of words, sorted through an order index. It takes the place of the Rust's `BTreeMap`
// (docs/ARCHITECTURE.md, "The scratch"). Row j starts at word j * ROW_WORDS. The index starts at word `index`, behind the rows; its
// first `used` words are the row numbers below `used`, each once. A row changes its position by moving words of the index; rows never
// move. The words behind the index are spare: `push_row`, `put` and `move_row` leave them unchanged.
#![tactic(auto)]

ghost use Rattle.std.specs.Prelude.{◌≡◌, ◌+◌, ◌*◌, ◌≤◌, ◌<◌, length};
ghost use Rattle.table.specs.Places.{Unchanged, Updated, RowsMoved, BlocksSwapped};
ghost use Rattle.table.specs.Rows.{row_words, row_at, UnchangedOutside, Moved, Written};
ghost use Rattle.table.specs.Store.{Store, row};

// The number of words of a row: `row_words` in specs/Rows.antt.
pub const ROW_WORDS: usize = 9;

// The word of a row that holds its tag: `tag_word`.
pub const TAG_WORD: usize = 4;

// One entry. A name is an offset and a length in the lent text. The tag is twice the kind, plus one where the optional value is
// given (crate table_item).
//
// | kind     | k1                      | k2              | k3              | count | optional   |
// |----------|-------------------------|-----------------|-----------------|-------|------------|
// | header   | cached insert position  | items, a hint   |                 |       |            |
// | function | name, offset            | name, length    | start, end line | calls | end line   |
// | branch   | line                    | block           | branch          | taken | taken      |
// | line     | line                    | checksum, offset| checksum, length| runs  | checksum   |
#[derive(Clone, Copy, Default)]
pub struct Row {
    pub test: u64,
    pub test_len: u64,
    pub path: u64,
    pub path_len: u64,
    pub tag: u64,
    pub k1: u64,
    pub k2: u64,
    pub k3: u64,
    pub count: u64,
}

pub fn read_row(words: &[u64], j: usize) -> Row
    requires { j * row_words + row_words ≤ length words.now }
    ensures { result ≡ row_at words.now j }
{
    let p = j * ROW_WORDS;
    Row {
        test: words[p],
        test_len: words[p + 1],
        path: words[p + 2],
        path_len: words[p + 3],
        tag: words[p + TAG_WORD],
        k1: words[p + 5],
        k2: words[p + 6],
        k3: words[p + 7],
        count: words[p + 8],
    }
}

fn write_row(words: &mut [u64], j: usize, row: Row)
    requires { j * row_words + row_words ≤ length words.old }
    ensures { Written words.old words.new j row }
{
    let p = j * ROW_WORDS;
    words[p] = row.test;
    words[p + 1] = row.test_len;
    words[p + 2] = row.path;
    words[p + 3] = row.path_len;
    words[p + TAG_WORD] = row.tag;
    words[p + 5] = row.k1;
    words[p + 6] = row.k2;
    words[p + 7] = row.k3;
    words[p + 8] = row.count;
}

// Copies n words. The two ranges may overlap.
pub fn copy_words(words: &mut [u64], from: usize, to: usize, n: usize)
    requires { (from + n ≤ length words.old) × (to + n ≤ length words.old) }
    ensures { Moved words.old words.new from to n }
{
    words.copy_within(from..from + n, to);
}

// The i-th row in the index's order.
pub fn get(words: &[u64], index: usize, used: usize, i: usize) -> Row
    requires { Store words.now index used × (i < used) }
    ensures { result ≡ row words.now index i }
{
    let j = words[index + i] as usize;
    read_row(words, j)
}

// Appends a row to the index, whatever its words hold.
pub fn push_row(words: &mut [u64], index: usize, used: usize)
    requires { Store words.old index used × ((used + 1) * row_words ≤ index) × (index + used < length words.old) }
    ensures store { Store words.new index (used + 1) }
    ensures rows { Unchanged (row words.old index) (row words.new index) 0 used }
    ensures spare { UnchangedOutside words.old words.new 0 (index + used + 1) }
{
    words[index + used] = used as u64;
}

// Replaces the i-th row.
pub fn put(words: &mut [u64], index: usize, used: usize, i: usize, new: Row)
    requires { Store words.old index used × (i < used) }
    ensures store { Store words.new index used }
    ensures rows { Updated (row words.old index) (row words.new index) used i new }
    ensures spare { UnchangedOutside words.old words.new 0 (index + used) }
{
    let j = words[index + i] as usize;
    write_row(words, j, new);
}

// Moves the row at `from` to `to`, and shifts the rows from there on up by one.
pub fn move_row(words: &mut [u64], index: usize, used: usize, to: usize, from: usize)
    requires { Store words.old index used × (to ≤ from) × (from < used) }
    ensures store { Store words.new index used }
    ensures rows { RowsMoved (row words.old index) (row words.new index) used to from 1 }
    ensures spare { UnchangedOutside words.old words.new 0 (index + used) }
{
    let number = words[index + from];
    copy_words(words, index + to, index + to + 1, from - to);
    words[index + to] = number;
}

// Moves the n rows at `from` to `to`, and shifts the rows from there on up by n. `spare` is the offset of n free words.
fn move_block(
    words: &mut [u64],
    index: usize,
    used: usize,
    to: usize,
    from: usize,
    n: usize,
    spare: usize,
)
    requires store { Store words.old index used × (to ≤ from) × (from + n ≤ used) }
    requires used_bound { (index + used ≤ spare) × (spare + n ≤ length words.old) }
    ensures store { Store words.new index used }
    ensures rows { RowsMoved (row words.old index) (row words.new index) used to from n }
{
    copy_words(words, index + from, spare, n);
    copy_words(words, index + to, index + to + n, from - to);
    copy_words(words, spare, index + to, n);
}

// Swaps the n rows at `lo` and the n at `mid`. `spare` is the offset of n free words.
fn swap_equal_blocks(
    words: &mut [u64],
    index: usize,
    used: usize,
    lo: usize,
    mid: usize,
    n: usize,
    spare: usize,
)
    requires store { Store words.old index used × (lo + n ≤ mid) × (mid + n ≤ used) }
    requires used_bound { (index + used ≤ spare) × (spare + n ≤ length words.old) }
    ensures store { Store words.new index used }
    ensures rows { BlocksSwapped (row words.old index) (row words.new index) used lo (lo + n) mid (mid + n) }
{
    copy_words(words, index + lo, spare, n);
    copy_words(words, index + mid, index + lo, n);
    copy_words(words, spare, index + mid, n);
}

// Swaps the first and the last of three adjacent blocks, which start at lo, hi and mid; the last ends at `end`. Where these two are of
// one size, the middle block does not move.
pub fn swap_blocks(
    words: &mut [u64],
    index: usize,
    used: usize,
    lo: usize,
    hi: usize,
    mid: usize,
    end: usize,
    spare: usize,
)
    requires store { Store words.old index used × (lo ≤ hi) × (hi ≤ mid) × (mid ≤ end) × (end ≤ used) }
    requires used_bound { (index + used ≤ spare) × (spare + end ≤ length words.old) }
    ensures store { Store words.new index used }
    ensures rows { BlocksSwapped (row words.old index) (row words.new index) used lo hi mid end }
{
    let third = end - mid;
    if hi - lo == third {
        swap_equal_blocks(words, index, used, lo, mid, third, spare);
        return;
    }
    move_block(words, index, used, lo, mid, third, spare);
    if lo < hi {
        move_block(words, index, used, lo + third, hi + third, mid - hi, spare);
    }
}
