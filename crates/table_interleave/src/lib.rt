// Interleaves rows appended behind sorted ones, given their insert positions, in one backward pass over the index. Each
// of the sorted rows moves at most once.
#![tactic(auto)]

ghost use Rattle.std.specs.Prelude.{◌+◌, ◌≤◌, length};
ghost use Rattle.table.specs.Rows.{word};
ghost use Rattle.table.specs.Store.{Store, row};
ghost use Rattle.table_interleave.specs.Interleaved.{Ascending, Interleaved};

// Interleaves the p rows behind the n from position `at` on with these n. Word j from `spare` on is the insert position
// of the j-th row: how many of the n come before it. The p words behind those are free.
pub fn interleave(
    words: &mut [u64],
    index: usize,
    used: usize,
    at: usize,
    n: usize,
    p: usize,
    spare: usize,
)
    requires store { Store words.old index used × (at + n + p ≤ used) }
    requires used_bound { (index + used ≤ spare) × (spare + p + p ≤ length words.old) × Ascending (λ j. word words.old (spare + j)) n p }
    ensures store { Store words.new index used }
    ensures rows { Interleaved (row words.old index) (row words.new index) (λ j. word words.old (spare + j)) used at n p }
{
    table::copy_words(words, index + at + n, spare + p, p);
    let mut hi = n;
    for j in (0..p).rev() {
        let place = words[spare + j] as usize;
        table::copy_words(
            words,
            index + at + place,
            index + at + place + j + 1,
            hi - place,
        );
        words[index + at + place + j] = words[spare + p + j];
        hi = place;
    }
}
