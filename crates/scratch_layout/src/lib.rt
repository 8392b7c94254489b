// The entry limit that a scratch has, and the layout of its words: the joined table, then the table for the text that is read.
#![tactic(auto)]

ghost use Rattle.std.specs.Prelude.{◌≡◌, ◌≤◌};
ghost use Rattle.model.specs.Limits.{max_entries};
ghost use Rattle.model.specs.Gather.{entry_limit};
ghost use Rattle.scratch_layout.specs.Layout.{index_at, spare_at, base_at};

// `words_per_entry` in model/specs/Limits.antt.
pub const WORDS_PER_ENTRY: usize = 32;

// `max_entries`.
const MAX_ENTRIES: usize = 65_535;

// "The entry limit E is the smaller of W/32 rounded down and 65,535."
pub fn entry_limit(words: usize) -> usize
    ensures { result ≡ entry_limit words }
{
    (words / WORDS_PER_ENTRY).min(MAX_ENTRIES)
}

// The offset of the index: `index_at` in specs/Layout.antt.
pub fn index_at(limit: usize) -> usize
    requires { limit ≤ max_entries }
    ensures { result ≡ index_at limit }
{
    section::capacity(limit) * table::ROW_WORDS
}

// The offset of the spare words, behind the index: `spare_at`.
pub fn spare_at(limit: usize) -> usize
    requires { limit ≤ max_entries }
    ensures { result ≡ spare_at limit }
{
    index_at(limit) + section::capacity(limit)
}

// The offset of the table for the text that is read: `base_at`.
pub fn base_at(limit: usize) -> usize
    requires { limit ≤ max_entries }
    ensures { result ≡ base_at limit }
{
    let rows = section::capacity(limit);
    spare_at(limit) + rows + rows
}
