// Where the rows of a sorted part are, by a hash of their keys: an open-addressing hash table in spare words. Performance only: it hints
// at a position, which the caller compares with the key. So the contracts say which words are written, and nothing of what is found.
#![tactic(auto)]

ghost use Rattle.std.specs.Prelude.{◌+◌, ◌<◌, ◌≤◌, length};
ghost use Rattle.table.specs.Rows.{UnchangedOutside};
ghost use Rattle.table_item.specs.Items.{ItemInBounds};
ghost use Rattle.table_item.specs.SortedItems.{SortedItems};

use table::Row;

// Half of a word: a slot holds a hash's lower half above the position plus one; 0 is an empty slot.
const HALF: u64 = 0x1_0000_0000;

// An odd number near 2^32 divided by the golden ratio, for the multiplicative hash.
const FACTOR: u64 = 2654435769;

// A key is looked for in so many slots.
const MAX_PROBES: usize = 128;

// The next value of a hash.
fn mix(hash: u64) -> u64 {
    (hash % HALF * FACTOR) ^ (hash / HALF)
}

// The hash of a name's length and of its bytes, eight at a time, but for the last name.len() % 8.
fn hash_words(name: &[u8]) -> u64 {
    let mut hash = name.len() as u64;
    let mut i = 0;
    // A `while`: it moves by eight, as far as eight bytes are left.
    while i + 8 <= name.len() {
        hash = mix(hash ^ compare::word(name, i));
        i += 8;
    }
    hash
}

// The hash of a name: eight bytes at a time, and then one by one.
fn hash_name(name: &[u8]) -> u64 {
    let mut hash = hash_words(name);
    for byte in &name[name.len() / 8 * 8..] {
        hash = mix(hash ^ u64::from(*byte));
    }
    hash
}

// The hash of a row's key. Lines have their number, so that lines of a file are in slots of their own.
fn hash_key(text: &[u8], row: Row) -> u64
    requires { ItemInBounds text.now row }
{
    let kind = row.tag / 2;
    if kind == table_item::FUNCTION {
        let p = row.k1 as usize;
        return hash_name(&text[p..p + (row.k2 as usize)]);
    }
    if kind == table_item::BRANCH {
        return mix(mix(mix(row.k1) ^ row.k2) ^ row.k3);
    }
    row.k1
}

// The slot where a hash is looked for first.
fn first_slot(hash: u64, size: usize) -> usize
    requires { 0 < size }
    ensures { result < size }
{
    (hash % (size as u64)) as usize
}

// The slot after another one.
fn next_slot(slot: usize, size: usize) -> usize
    requires { slot < size }
    ensures { result < size }
{
    if slot + 1 < size {
        return slot + 1;
    }
    0
}

// Empties the slots.
fn clear(words: &mut [u64], from: usize, size: usize)
    requires { from + size ≤ length words.old }
    ensures { UnchangedOutside words.old words.new from (from + size) }
{
    words[from..from + size].fill(0);
}

// Puts a position into the first empty slot for its hash, unless that is too far.
fn put_hint(words: &mut [u64], from: usize, size: usize, hash: u64, i: usize)
    requires { (from + size ≤ length words.old) × (0 < size) × (i < length words.old) }
    ensures { UnchangedOutside words.old words.new from (from + size) }
{
    let mut slot = first_slot(hash, size);
    for _probe in 0..MAX_PROBES {
        if words[from + slot] == 0 {
            words[from + slot] = (hash % HALF * HALF).wrapping_add(i as u64 + 1);
            return;
        }
        slot = next_slot(slot, size);
    }
}

// Writes the positions of the n rows from position `at` on, counted from there, into the `size` words from word `from` on.
fn fill_slots(
    text: &[u8],
    words: &mut [u64],
    index: usize,
    used: usize,
    at: usize,
    n: usize,
    from: usize,
    size: usize,
)
    requires sorted_items { SortedItems text.now words.old index used at n }
    requires used_bound { (index + used ≤ from) × (from + size ≤ length words.old) × (0 < size) }
    ensures { UnchangedOutside words.old words.new from (from + size) }
{
    clear(words, from, size);
    for i in 0..n {
        let row = table::get(words, index, used, at + i);
        put_hint(words, from, size, hash_key(text, row), i);
    }
}

// The position of a row's key, counted as in `fill`, if the slots hint at one, else usize::MAX. Nothing is promised of it.
fn find_slot(text: &[u8], words: &[u64], from: usize, size: usize, row: Row) -> usize
    requires { ItemInBounds text.now row × (from + size ≤ length words.now) × (0 < size) }
{
    let hash = hash_key(text, row);
    let mut slot = first_slot(hash, size);
    for _probe in 0..MAX_PROBES {
        let hint = words[from + slot];
        if hint == 0 {
            return usize::MAX;
        }
        if hint / HALF == hash % HALF {
            return (hint % HALF).wrapping_sub(1) as usize;
        }
        slot = next_slot(slot, size);
    }
    usize::MAX
}

// Writes the positions of the n rows from position `at` on into slots, and the number of words in front of them: `size` words from word
// `from` on.
pub fn fill(
    text: &[u8],
    words: &mut [u64],
    index: usize,
    used: usize,
    at: usize,
    n: usize,
    from: usize,
    size: usize,
)
    requires sorted_items { SortedItems text.now words.old index used at n }
    requires used_bound { (index + used ≤ from) × (from + size ≤ length words.old) × (1 < size) }
    ensures { UnchangedOutside words.old words.new from (from + size) }
{
    fill_slots(text, words, index, used, at, n, from + 1, size - 1);
    words[from] = size as u64;
}

// The position of a row's key if the words that `fill` wrote from word `from` on hint at one, else usize::MAX. Of the words from there on,
// `size` are lent. Nothing is promised of it.
pub fn find(text: &[u8], words: &[u64], from: usize, size: usize, row: Row) -> usize
    requires { ItemInBounds text.now row × (from + size ≤ length words.now) × (0 < size) }
{
    let filled = words[from] as usize;
    if size < filled {
        return usize::MAX;
    }
    if filled < 2 {
        return usize::MAX;
    }
    find_slot(text, words, from + 1, filled - 1, row)
}
