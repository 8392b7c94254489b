// Tombstones. `mark_deleted` marks replaced rows in place, since removing each from the index would shift the rest of
// it. `compact` removes all marked rows in one pass. Both read and write only the tag of a row.
#![tactic(auto)]

ghost use Rattle.std.specs.Prelude.{◌≡◌, true, not, ℕ, ◌+◌, ◌≤◌, ◌<◌, eqb, length};
ghost use Rattle.table.specs.Store.{Store, row};
ghost use Rattle.table_item.specs.Items.{tombstone_tag};
ghost use Rattle.table_tombstone.specs.Live.{is_live, one_for, MarkedDeleted, Compacted};

use table::{ROW_WORDS, TAG_WORD};
use table_item::TOMBSTONE;

// 1 for the tag of a live row, 0 for that of a deleted one. A number to add spares `compact` an unpredictable branch.
fn count_live(tag: u64) -> usize
    ensures told { result ≡ one_for (not (eqb tag tombstone_tag)) }
    ensures most { result ≤ 1 }
{
    usize::from(tag != TOMBSTONE)
}

// Marks the rows from position lo up to hi as deleted and answers how many of them were live. Live rows come before
// deleted ones there, so the first deleted row ends the loop: each row is marked once, however often a range is marked.
pub fn mark_deleted(words: &mut [u64], index: usize, used: usize, lo: usize, hi: usize) -> usize
    requires store { Store words.old index used × (lo ≤ hi) × (hi ≤ used) }
    requires by_index { (i j : ℕ) → lo ≤ i → i < j → j < hi → is_live (row words.old index j) ≡ true → is_live (row words.old index i) ≡ true }
    ensures store { Store words.new index used }
    ensures rows { MarkedDeleted (row words.old index) (row words.new index) used lo hi result }
{
    for i in lo..hi {
        let number = words[index + i] as usize;
        let at = number * ROW_WORDS + TAG_WORD;
        if words[at] == TOMBSTONE {
            return i - lo;
        }
        words[at] = TOMBSTONE;
    }
    hi - lo
}

// Moves the live ones of the first n rows to the front, in order, and the deleted ones behind them. Answers how many
// are live. `spare` is the offset of n free words. Each row number is written to both destinations, and the next one
// overwrites it in the wrong one: the position in front has been read already.
pub fn compact(words: &mut [u64], index: usize, used: usize, n: usize, spare: usize) -> usize
    requires store { Store words.old index used × (n ≤ used) }
    requires used_bound { (index + used ≤ spare) × (spare + n ≤ length words.old) }
    ensures store { Store words.new index used }
    ensures rows { Compacted (row words.old index) (row words.new index) n result }
{
    let mut living = 0;
    for i in 0..n {
        let number = words[index + i];
        let tag = words[(number as usize) * ROW_WORDS + TAG_WORD];
        words[spare + (i - living)] = number;
        words[index + living] = number;
        living += count_live(tag);
    }
    table::copy_words(words, spare, index + living, n - living);
    living
}
