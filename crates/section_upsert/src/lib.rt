// Upsert into the open section (SPEC 3.3): insert a new key, or combine with the row that has it. The
// items are a sorted main part and a small sorted delta behind it. A key greater than all others, as in most texts, is
// appended to main. Any other new key goes to the delta, which is merged into main when it is full, so that unsorted
// lines rarely move main.
#![tactic(auto)]

ghost use Rattle.std.specs.Prelude.{◌+◌, ◌≤◌, ◌<◌, length, Err};
ghost use Rattle.table.specs.Store.{Store};
ghost use Rattle.table_item.specs.Items.{item_of, ItemRow};
ghost use Rattle.table_item.specs.SortedItems.{FoundPlace};
ghost use Rattle.table_item.specs.Combining.{Adds};
ghost use Rattle.section_upsert.specs.MainDelta.{DeltaInserted, MainDelta};
ghost use Rattle.section_upsert.specs.Upserted.{RowCombined, Upserted};

use model::Fault;
use table::Row;
use table_item::{combine, find_item};

// Combines the row at position i with another of its key: the row that they make, none where their counts do not add.
fn combine_at(
    words: &mut [u64],
    index: usize,
    used: usize,
    i: usize,
    row: Row,
    accumulate: bool,
) -> Option<Row>
    requires { Store words.old index used × (i < used) × Adds accumulate row }
    ensures { RowCombined words.old words.new index used i row accumulate result }
{
    let old = table::get(words, index, used, i);
    let both = combine(old, row, accumulate)?;
    table::put(words, index, used, i, both);
    Some(both)
}

// The delta is merged into main when it has this many items.
const DELTA_ITEMS: usize = 256;

// Inserts a row at position k of the p rows of the delta, which starts at position `from`, and its insert position i in
// main into the spare words. The row behind the delta is free.
fn insert_delta(
    words: &mut [u64],
    index: usize,
    used: usize,
    spare: usize,
    from: usize,
    p: usize,
    k: usize,
    i: usize,
    row: Row,
)
    requires store { Store words.old index used × (k ≤ p) × (from + p < used) }
    requires used_bound { (index + used ≤ spare) × (spare + used ≤ length words.old) }
    ensures { DeltaInserted words.old words.new index used spare from p k i row }
{
    table::put(words, index, used, from + p, row);
    table::move_row(words, index, used, from + k, from + p);
    table::copy_words(words, spare + k, spare + k + 1, p - k);
    words[spare + k] = i as u64;
}

// The sizes of main and delta.
#[derive(Clone, Copy)]
pub struct PartSizes {
    pub main: usize,
    pub delta: usize,
}

// Upserts a row that main, of n items, does not have into the delta, of p items. Its insert position in main is i.
fn upsert_delta(
    text: &[u8],
    words: &mut [u64],
    index: usize,
    used: usize,
    spare: usize,
    at: usize,
    n: usize,
    p: usize,
    i: usize,
    row: Row,
    accumulate: bool,
) -> Result<PartSizes, Fault>
    requires main_delta { MainDelta text.now words.old index used spare at n p × ItemRow text.now row × Adds accumulate row }
    requires used_bound { (index + used ≤ spare) × (spare + used + used ≤ length words.old) × FoundPlace text.now words.old index at n (item_of text.now row) (Err i) }
    ensures { Upserted text.now words.old words.new index used spare at n p row accumulate result }
{
    match find_item(text, words, index, used, at + n, p, p, row) {
        Ok(k) => match combine_at(words, index, used, at + n + k, row, accumulate) {
            Some(_both) => Ok(PartSizes { main: n, delta: p }),
            None => Err(Fault::CallOverflow),
        },
        Err(k) => {
            if used <= at + n + p {
                return Err(Fault::TooManyEntries);
            }
            insert_delta(words, index, used, spare, at + n, p, k, i, row);
            if p + 1 < DELTA_ITEMS {
                return Ok(PartSizes {
                    main: n,
                    delta: p + 1,
                });
            }
            table_interleave::interleave(words, index, used, at, n, p + 1, spare);
            Ok(PartSizes {
                main: n + (p + 1),
                delta: 0,
            })
        }
    }
}

// Upserts a row into the open section: n items of main from position `at` on and p of the delta behind them. Only free
// rows follow in the index. `spare` is the offset of free words; `hint` is the position in main that is tried first.
pub fn upsert(
    text: &[u8],
    words: &mut [u64],
    index: usize,
    used: usize,
    spare: usize,
    at: usize,
    n: usize,
    p: usize,
    hint: usize,
    row: Row,
    accumulate: bool,
) -> Result<PartSizes, Fault>
    requires main_delta { MainDelta text.now words.old index used spare at n p × ItemRow text.now row × Adds accumulate row }
    requires used_bound { (index + used ≤ spare) × (spare + used + used ≤ length words.old) }
    ensures { Upserted text.now words.old words.new index used spare at n p row accumulate result }
{
    match find_item(text, words, index, used, at, n, hint, row) {
        Ok(i) => match combine_at(words, index, used, at + i, row, accumulate) {
            Some(_both) => Ok(PartSizes { main: n, delta: p }),
            None => Err(Fault::CallOverflow),
        },
        Err(i) => {
            if p == 0 && i == n {
                if used <= at + n {
                    return Err(Fault::TooManyEntries);
                }
                table::put(words, index, used, at + n, row);
                return Ok(PartSizes {
                    main: n + 1,
                    delta: 0,
                });
            }
            upsert_delta(
                text, words, index, used, spare, at, n, p, i, row, accumulate,
            )
        }
    }
}
