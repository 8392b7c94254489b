// The open section's append tail (SPEC 3.3). Rows that arrive out of order are appended behind the items, with no search. The exact
// items are needed only at end_of_record, when no row is free and where the calls so far may pass 2^64 − 1: then the tail is flushed, that
// is presorted with main and upserted row by row.
#![tactic(auto)]

ghost use Rattle.std.specs.Prelude.{◌≡◌, ◌≢◌, true, cond, ℕ, ◌+◌, ◌-◌, ◌≤◌, ◌<◌, length};
ghost use Rattle.std.proofs.Math.Dec.{compare_is_eq};
ghost use Rattle.table.specs.Store.{row, Store};
ghost use Rattle.model.specs.Order.{is_less};
ghost use Rattle.model.specs.Limits.{u64_max};
ghost use Rattle.model.specs.Report.{compare_items};
ghost use Rattle.table_item.specs.Items.{item_of, ItemRow};
ghost use Rattle.table_item.specs.SortedItems.{item_from, items_at, SortedItems};
ghost use Rattle.section_upsert.specs.MainDelta.{MainDelta};
ghost use Rattle.section_tail.specs.Tail.{more_calls, with_tail, with_one_more, RowFits, RowOfLine, CallsFit, OneUpserted, AllUpserted, OpenSection, TailFlushed, AllFlushed};
ghost use Rattle.section_tail.specs.RowAdded.{RowAdded};

use model::Fault;
use table::Row;
use table_item::{combine, comes_before, compare_items, is_calls};

// The sizes of main, delta and tail of the open section; how often its tail was started, plus HINTED where it has hints, which only guides
// speed; and the sum of the calls of all FNDA lines so far, u64::MAX where it does not fit.
#[derive(Clone, Copy)]
pub struct OpenSizes {
    pub main: usize,
    pub delta: usize,
    pub tail: usize,
    pub flushes: usize,
    pub calls: u64,
}

// A section that flushes its tail so often upserts every further row, which bounds the worst case.
const MAX_FLUSHES: usize = 8;

// A section of so many items that goes on after a flush has hints at their positions, in the spare words behind the first of them, which
// are the delta's.
const HINTED_ITEMS: usize = 512;

const HINTS_START: usize = 512;

// Added to the number of tails of a section that has hints.
const HINTED: usize = 16;

// Whether the row is greater than all items, which are in main alone. Most rows are, once they are presorted.
fn is_greatest(
    text: &[u8],
    words: &[u64],
    index: usize,
    used: usize,
    at: usize,
    sizes: OpenSizes,
    row: Row,
) -> bool
    requires { SortedItems text.now words.now index used at sizes.main × ItemRow text.now row }
    ensures { result ≡ true → (sizes.delta ≡ 0) × (sizes.main ≢ 0) × (is_less (compare_items (item_from text.now words.now index at (sizes.main - 1)) (item_of text.now row)) ≡ true) }
{
    if sizes.delta != 0 {
        return false;
    }
    if sizes.main == 0 {
        return false;
    }
    let last = table::get(words, index, used, at + (sizes.main - 1));
    comes_before(text, last, row)
}

// The sizes with one more item in main.
fn with_one_more(sizes: OpenSizes) -> OpenSizes
    requires { sizes.main + 1 ≤ u64_max }
    ensures { result ≡ with_one_more sizes }
{
    OpenSizes {
        main: sizes.main + 1,
        tail: 0,
        ..sizes
    }
}

// Upserts the i-th row from position `at` on into those before it. The greatest only changes its position.
fn upsert_next(
    text: &[u8],
    words: &mut [u64],
    index: usize,
    used: usize,
    spare: usize,
    at: usize,
    sizes: OpenSizes,
    i: usize,
) -> OpenSizes
    requires main_delta { MainDelta text.now words.old index used spare at sizes.main sizes.delta × (sizes.main + sizes.delta ≤ i) }
    requires i_bound { (at + i < used) × ItemRow text.now (row words.old index (at + i)) × (index + used ≤ spare) × (spare + used + used ≤ length words.old) }
    requires row_fits { RowFits text.now words.old index at i sizes }
    ensures { OneUpserted text.now words.old words.new index used spare at i sizes result }
{
    let row = table::get(words, index, used, at + i);
    if is_greatest(text, words, index, used, at, sizes, row) {
        let n = sizes.main;
        if n < i {
            table::swap_blocks(
                words,
                index,
                used,
                at + n,
                at + n + 1,
                at + i,
                at + i + 1,
                spare,
            );
            return with_one_more(sizes);
        }
        return with_one_more(sizes);
    }
    let got = section_upsert::upsert(
        text,
        words,
        index,
        used,
        spare,
        at,
        sizes.main,
        sizes.delta,
        sizes.main,
        row,
        is_calls(row),
    );
    let Ok(parts) = got else {
        return sizes;
    };
    OpenSizes {
        main: parts.main,
        delta: parts.delta,
        tail: 0,
        ..sizes
    }
}

// Upserts the m rows from position `at` on, of which the first n are main, one after the other.
fn upsert_all(
    text: &[u8],
    words: &mut [u64],
    index: usize,
    used: usize,
    spare: usize,
    at: usize,
    n: usize,
    m: usize,
    before: OpenSizes,
) -> OpenSizes
    requires sorted_items { SortedItems text.now words.old index used at n × (n ≤ m) × (at + m ≤ used) × ((i : ℕ) → i < m → ItemRow text.now (row words.old index (at + i))) }
    requires used_bound { (index + used ≤ spare) × (spare + used + used ≤ length words.old) × CallsFit (items_at text.now words.old index at m) }
    ensures { AllUpserted text.now words.old words.new index used spare at m before.calls result }
{
    let mut sizes = OpenSizes {
        main: n,
        delta: 0,
        tail: 0,
        ..before
    };
    for i in n..m {
        sizes = upsert_next(text, words, index, used, spare, at, sizes, i);
    }
    sizes
}

// A tail shorter than main divided by this is upserted as it is: a presort of all items would cost more.
const PRESORT_RATIO: usize = 8;

// Whether the k-th row from position `at` on is greater than the one before it; true for the first.
fn is_ascending_at(
    text: &[u8],
    words: &[u64],
    index: usize,
    used: usize,
    at: usize,
    k: usize,
) -> bool
    requires { Store words.now index used × (at + k < used) × ((i : ℕ) → i ≤ k → ItemRow text.now (row words.now index (at + i))) }
    ensures { result ≡ true → k ≢ 0 → is_less (compare_items (item_from text.now words.now index at (k - 1)) (item_from text.now words.now index at k)) ≡ true }
{
    if k == 0 {
        return true;
    }
    let before = table::get(words, index, used, at + (k - 1));
    let here = table::get(words, index, used, at + k);
    comes_before(text, before, here)
}

// How many of the m rows from position `at` on ascend strictly by key: these are main as they are.
fn sorted_prefix_len(
    text: &[u8],
    words: &[u64],
    index: usize,
    used: usize,
    at: usize,
    m: usize,
) -> usize
    requires { Store words.now index used × (at + m ≤ used) × ((i : ℕ) → i < m → ItemRow text.now (row words.now index (at + i))) }
    ensures { SortedItems text.now words.now index used at result × (result ≤ m) }
{
    for k in 0..m {
        if !is_ascending_at(text, words, index, used, at, k) {
            return k;
        }
    }
    m
}

// Flushes the tail: upserts its rows into main and delta. The rows of real texts ascend by kind: then they are only sorted by it.
pub fn flush_tail(
    text: &[u8],
    words: &mut [u64],
    index: usize,
    used: usize,
    spare: usize,
    at: usize,
    sizes: OpenSizes,
) -> OpenSizes
    requires { OpenSection text.now words.old index used spare at sizes × (index + used ≤ spare) × (spare + used + used ≤ length words.old) }
    ensures { TailFlushed text.now words.old words.new index used spare at sizes result }
{
    if sizes.tail == 0 {
        return sizes;
    }
    let m = sizes.main + sizes.tail;
    if sizes.tail < sizes.main / PRESORT_RATIO {
        return upsert_all(text, words, index, used, spare, at, sizes.main, m, sizes);
    }
    section_presort::sort_by_kind(text, words, index, used, at, m, spare);
    let sorted = sorted_prefix_len(text, words, index, used, at, m);
    if sorted == m {
        return upsert_all(text, words, index, used, spare, at, sorted, m, sizes);
    }
    section_presort::sort_within_kinds(text, words, index, used, at, m, spare);
    let n = sorted_prefix_len(text, words, index, used, at, m);
    upsert_all(text, words, index, used, spare, at, n, m, sizes)
}

// The sum of the calls with those of one more row.
fn more_calls(calls: u64, row: Row, accumulate: bool) -> u64
    ensures { result ≡ more_calls accumulate calls row.count }
{
    if !accumulate {
        return calls;
    }
    calls.saturating_add(row.count)
}

// Whether the calls with those of one more row are known to fit.
fn calls_fit(calls: u64, row: Row, accumulate: bool) -> bool
    ensures { result ≡ true → calls + cond accumulate row.count 0 < u64_max }
{
    if accumulate {
        return row.count < u64::MAX - calls;
    }
    calls < u64::MAX
}

// Whether the row is an FNDA of the function that the last row is.
fn joins(text: &[u8], last: Row, row: Row, accumulate: bool) -> bool
    requires { ItemRow text.now last × ItemRow text.now row }
    ensures { result ≡ true → (accumulate ≡ true) × (compare_is_eq (compare_items (item_of text.now row) (item_of text.now last)) ≡ true) }
{
    if !accumulate {
        return false;
    }
    if last.k2 != row.k2 {
        return false;
    }
    compare_items(text, row, last).is_eq()
}

// Upserts a row where the tail is empty; position `hint` is tried first.
fn upsert_row(
    text: &[u8],
    words: &mut [u64],
    index: usize,
    used: usize,
    spare: usize,
    at: usize,
    sizes: OpenSizes,
    hint: usize,
    row: Row,
    accumulate: bool,
) -> Result<OpenSizes, Fault>
    requires open_section { OpenSection text.now words.old index used spare at sizes × (sizes.tail ≡ 0) × ItemRow text.now row × RowOfLine accumulate row }
    requires used_bound { (index + used ≤ spare) × (spare + used + used ≤ length words.old) }
    ensures { RowAdded text.now words.old words.new index used spare at sizes row accumulate result }
{
    let n = sizes.main;
    let p = sizes.delta;
    let parts = section_upsert::upsert(
        text, words, index, used, spare, at, n, p, hint, row, accumulate,
    )?;
    Ok(OpenSizes {
        main: parts.main,
        delta: parts.delta,
        tail: 0,
        flushes: sizes.flushes,
        calls: more_calls(sizes.calls, row, accumulate),
    })
}

// The sizes with `more` rows in the tail and the calls of a row.
fn with_tail(sizes: OpenSizes, more: usize, row: Row, accumulate: bool) -> OpenSizes
    requires { sizes.tail + more ≤ u64_max }
    ensures { result ≡ with_tail sizes more (more_calls accumulate sizes.calls row.count) }
{
    OpenSizes {
        tail: sizes.tail + more,
        calls: more_calls(sizes.calls, row, accumulate),
        ..sizes
    }
}

// Whether the tail, which ends before position `end`, is flushed before the row comes: its functions are complete where another kind
// follows, and all that follows may then be in order; where FNDA lines follow many FN lines, hints find their functions. Nothing is built
// on it but speed.
fn flushes_first(
    words: &[u64],
    index: usize,
    used: usize,
    end: usize,
    sizes: OpenSizes,
    row: Row,
) -> bool
    requires { Store words.now index used × (0 < end) × (end ≤ used) }
{
    if sizes.flushes != 1 {
        return false;
    }
    let last = table::get(words, index, used, end - 1);
    if last.tag / 2 < row.tag / 2 {
        return true;
    }
    if sizes.tail < HINTED_ITEMS {
        return false;
    }
    if is_calls(last) {
        return false;
    }
    is_calls(row)
}

// Flushes the tail of a section that goes on, and hints at the positions of its items.
pub fn flush_midway(
    text: &[u8],
    words: &mut [u64],
    index: usize,
    used: usize,
    spare: usize,
    at: usize,
    sizes: OpenSizes,
) -> OpenSizes
    requires { OpenSection text.now words.old index used spare at sizes × (index + used ≤ spare) × (spare + used + used ≤ length words.old) }
    ensures { TailFlushed text.now words.old words.new index used spare at sizes result }
{
    let all = flush_tail(text, words, index, used, spare, at, sizes);
    let n = all.main;
    if n < HINTED_ITEMS {
        return all;
    }
    if HINTS_START < all.delta {
        return all;
    }
    let from = spare + HINTS_START;
    let size = used + used - HINTS_START;
    section_hint::fill(text, words, index, used, at, n, from, size);
    OpenSizes {
        flushes: HINTED + all.flushes % HINTED,
        ..all
    }
}

// The position in main at which hints say that a row's key is; none if it is behind main. Nothing is promised of it.
fn hint_of(
    text: &[u8],
    words: &[u64],
    used: usize,
    spare: usize,
    sizes: OpenSizes,
    row: Row,
) -> usize
    requires { ItemRow text.now row × (sizes.main ≤ used) × (spare + used + used ≤ length words.now) }
{
    let n = sizes.main;
    if sizes.flushes < HINTED {
        return n;
    }
    if n < HINTED_ITEMS {
        return n;
    }
    let size = used + used - HINTS_START;
    section_hint::find(text, words, spare + HINTS_START, size, row)
}

// Whether a row that is not the greatest starts the tail: main is not known to have its key. Save for the bound, nothing is built on it
// but speed.
fn starts_tail(sizes: OpenSizes, hint: usize, joined: bool) -> bool
    ensures { result ≡ true → sizes.flushes + 1 ≤ u64_max }
{
    if joined {
        return false;
    }
    if hint < sizes.main {
        return false;
    }
    sizes.flushes % HINTED < MAX_FLUSHES
}

// Adds a row to a tail that is not empty. An FNDA after a row of its function is combined with that row. Any other is appended, unless its
// calls may not fit or no row is free: then the tail is flushed and the row upserted.
fn append_or_flush(
    text: &[u8],
    words: &mut [u64],
    index: usize,
    used: usize,
    spare: usize,
    at: usize,
    sizes: OpenSizes,
    row: Row,
    accumulate: bool,
) -> Result<OpenSizes, Fault>
    requires open_section { OpenSection text.now words.old index used spare at sizes × (sizes.tail ≢ 0) × ItemRow text.now row × RowOfLine accumulate row }
    requires used_bound { (index + used ≤ spare) × (spare + used + used ≤ length words.old) }
    ensures { RowAdded text.now words.old words.new index used spare at sizes row accumulate result }
{
    let end = at + sizes.main + sizes.delta + sizes.tail;
    if calls_fit(sizes.calls, row, accumulate) {
        if accumulate {
            let last = table::get(words, index, used, end - 1);
            if joins(text, last, row, accumulate) {
                if let Some(both) = combine(last, row, accumulate) {
                    table::put(words, index, used, end - 1, both);
                    return Ok(with_tail(sizes, 0, row, accumulate));
                }
            }
        }
        if end < used {
            if !flushes_first(words, index, used, end, sizes, row) {
                table::put(words, index, used, end, row);
                return Ok(with_tail(sizes, 1, row, accumulate));
            }
        }
    }
    let all = flush_midway(text, words, index, used, spare, at, sizes);
    upsert_row(
        text, words, index, used, spare, at, all, all.main, row, accumulate,
    )
}

// Adds a row where all items are in main and a row is free. Most texts are sorted, so the row is greater than the last
// and is appended to main. Any other starts the tail, unless main has its key where it was looked for.
fn append_sorted(
    text: &[u8],
    words: &mut [u64],
    index: usize,
    used: usize,
    spare: usize,
    at: usize,
    sizes: OpenSizes,
    row: Row,
    accumulate: bool,
) -> Result<OpenSizes, Fault>
    requires open_section { OpenSection text.now words.old index used spare at sizes × (sizes.tail ≡ 0) × ItemRow text.now row × RowOfLine accumulate row }
    requires delta_value { (sizes.delta ≡ 0) × (sizes.main ≢ 0) × (at + sizes.main < used) }
    requires used_bound { (index + used ≤ spare) × (spare + used + used ≤ length words.old) }
    ensures { RowAdded text.now words.old words.new index used spare at sizes row accumulate result }
{
    let n = sizes.main;
    let last = table::get(words, index, used, at + (n - 1));
    if comes_before(text, last, row) {
        table::put(words, index, used, at + n, row);
        return Ok(OpenSizes {
            main: n + 1,
            delta: 0,
            tail: 0,
            flushes: sizes.flushes,
            calls: more_calls(sizes.calls, row, accumulate),
        });
    }
    let joined = joins(text, last, row, accumulate);
    let hint = hint_of(text, words, used, spare, sizes, row);
    if starts_tail(sizes, hint, joined) {
        if calls_fit(sizes.calls, row, accumulate) {
            table::put(words, index, used, at + n, row);
            return Ok(OpenSizes {
                tail: sizes.tail + 1,
                flushes: sizes.flushes + 1,
                calls: more_calls(sizes.calls, row, accumulate),
                ..sizes
            });
        }
    }
    upsert_row(
        text, words, index, used, spare, at, sizes, hint, row, accumulate,
    )
}

// Adds a row to the open section, whose items start at position `at`. Only free rows follow in the index. `spare` is
// the offset of free words.
pub fn add_row(
    text: &[u8],
    words: &mut [u64],
    index: usize,
    used: usize,
    spare: usize,
    at: usize,
    sizes: OpenSizes,
    row: Row,
    accumulate: bool,
) -> Result<OpenSizes, Fault>
    requires open_section { OpenSection text.now words.old index used spare at sizes × ItemRow text.now row × RowOfLine accumulate row }
    requires used_bound { (index + used ≤ spare) × (spare + used + used ≤ length words.old) }
    ensures { RowAdded text.now words.old words.new index used spare at sizes row accumulate result }
{
    if sizes.tail != 0 {
        return append_or_flush(text, words, index, used, spare, at, sizes, row, accumulate);
    }
    if sizes.delta == 0 {
        if sizes.main != 0 {
            if at + sizes.main < used {
                return append_sorted(text, words, index, used, spare, at, sizes, row, accumulate);
            }
        }
    }
    upsert_row(
        text, words, index, used, spare, at, sizes, sizes.main, row, accumulate,
    )
}

// Flushes the tail and merges the delta, so that all items are in main. Answers how many there are.
pub fn flush_all(
    text: &[u8],
    words: &mut [u64],
    index: usize,
    used: usize,
    spare: usize,
    at: usize,
    sizes: OpenSizes,
) -> usize
    requires { OpenSection text.now words.old index used spare at sizes × (index + used ≤ spare) × (spare + used + used ≤ length words.old) }
    ensures { AllFlushed text.now words.old words.new index used at sizes result }
{
    let all = flush_tail(text, words, index, used, spare, at, sizes);
    let n = all.main;
    let p = all.delta;
    table_interleave::interleave(words, index, used, at, n, p, spare);
    n + p
}
