// The reading state between two lines, and the effect of each record on it (SPEC 3.2). Each step answers the model's next
// state, read back from the words, or the fault; entries are counted after the record took effect.
#![tactic(auto)]

ghost use Rattle.std.specs.Prelude.{◌≡◌, List, [], ℕ, ◌+◌, ◌≤◌, ◌<◌, ◌^◌, length};
ghost use Rattle.model.specs.Record.{test_name, source_file, end_of_record};
ghost use Rattle.model.specs.Reading.{outside, enter_item, ignored, effect};
ghost use Rattle.table.specs.Store.{Store};
ghost use Rattle.table_item.specs.Items.{part_in, PartInside, item_of, ItemRow};
ghost use Rattle.table_item.specs.Combining.{combine_of};
ghost use Rattle.section_tail.specs.Tail.{RowOfLine, OpenSection};
ghost use Rattle.section.specs.Reading.{slack, capacity, SectionRoom, RowReserved, with_open, with_path, with_closed, kept_sizes_of, state_of, StateRoom, HoldsState, StepBy, AllInMain};

use model::{Fault, Part};
use section_commit::{KeptSizes, commit_section};
use section_tail::{OpenSizes, add_row, flush_all, flush_midway};
use table::Row;

// The state between two lines: the number of kept rows, of those in the delta, and of tombstones; the number of rows in
// use; the sizes of the open section; the last test name; the open section's path, and whether its SF came.
#[derive(Clone, Copy)]
pub struct State {
    pub kept: usize,
    pub delta: usize,
    pub tombstones: usize,
    pub used: usize,
    pub sizes: OpenSizes,
    pub inside: bool,
    pub test: Part,
    pub path: Part,
    pub has_path: bool,
}

// One tombstone may remain for so many entries.
const ENTRIES_PER_TOMBSTONE: usize = 8;

// The largest number of tombstones: `slack` in specs/Reading.antt.
pub fn slack(limit: usize) -> usize
    ensures { result ≡ slack limit }
{
    limit / ENTRIES_PER_TOMBSTONE
}

// The number of rows: one for each entry within the limit, and the slack for tombstones.
pub fn capacity(limit: usize) -> usize
    requires { capacity limit < 2 ^ 64 }
    ensures { result ≡ capacity limit }
{
    limit + slack(limit)
}

// The sizes of the kept sections.
fn kept_sizes(state: State) -> KeptSizes
    requires { state.delta ≤ state.kept }
    ensures { result ≡ kept_sizes_of state }
{
    KeptSizes {
        main: state.kept - state.delta,
        delta: state.delta,
        tombstones: state.tombstones,
    }
}

// The state with an open section.
fn with_open(state: State, used: usize, sizes: OpenSizes) -> State
    ensures { result ≡ with_open state used sizes }
{
    State {
        used,
        sizes,
        inside: true,
        ..state
    }
}

// The state whose section has the path.
fn with_path(state: State, path: Part) -> State
    ensures { result ≡ with_path state path }
{
    State {
        path,
        has_path: true,
        ..state
    }
}

// The state with no open section.
fn with_closed(kept: usize, delta: usize, tombstones: usize, used: usize, test: Part) -> State
    ensures { result ≡ with_closed kept delta tombstones used test }
{
    let none = Part { start: 0, len: 0 };
    let empty = OpenSizes {
        main: 0,
        delta: 0,
        tail: 0,
        flushes: 0,
        calls: 0,
    };
    State {
        kept,
        delta,
        tombstones,
        used,
        sizes: empty,
        inside: false,
        test,
        path: none,
        has_path: false,
    }
}

// Before the first line.
pub fn start() -> State
    ensures valid { (text words : List ℕ) (index limit : ℕ) → SectionRoom words index limit → HoldsState text words index limit result }
    ensures state { (text words : List ℕ) (index : ℕ) → state_of text words index result ≡ outside [] [] }
{
    let none = Part { start: 0, len: 0 };
    with_closed(0, 0, 0, 0, none)
}

// Appends a row where position `place` is not in use yet and a row is free. Answers the number of rows in use.
fn reserve_row(words: &mut [u64], index: usize, used: usize, limit: usize, place: usize) -> usize
    requires { Store words.old index used × SectionRoom words.old index limit × (used ≤ capacity limit) × (place ≤ used) }
    ensures { RowReserved words.old words.new index used limit place result }
{
    if place < used {
        return used;
    }
    if used < capacity(limit) {
        table::push_row(words, index, used);
        return used + 1;
    }
    used
}

// FN, FNDA, BRDA and DA: adds the row to the open section, and opens one if none is open. Where its rows are past the limit, the tail is
// flushed, and its items are counted.
pub fn on_item(
    text: &[u8],
    words: &mut [u64],
    index: usize,
    limit: usize,
    state: State,
    row: Row,
    accumulate: bool,
) -> Result<State, Fault>
    requires { HoldsState text.now words.old index limit state × ItemRow text.now row × RowOfLine accumulate row }
    ensures { StepBy (enter_item (combine_of accumulate) (item_of text.now row)) text.now words.old words.new index limit state result }
{
    let kept = state.kept;
    let most = limit + state.tombstones;
    let is_full = most <= kept;
    if is_full {
        return Err(Fault::TooManyEntries);
    }
    let sizes = state.sizes;
    let header_used = reserve_row(words, index, state.used, limit, kept);
    let end = kept + 1 + sizes.main + sizes.delta + sizes.tail;
    let used = reserve_row(words, index, header_used, limit, end);
    let spare = index + capacity(limit);
    match add_row(
        text,
        words,
        index,
        used,
        spare,
        kept + 1,
        sizes,
        row,
        accumulate,
    ) {
        Ok(next) => {
            let end = kept + 1 + next.main + next.delta + next.tail;
            if end <= most {
                return Ok(with_open(state, used, next));
            }
            let all = flush_midway(text, words, index, used, spare, kept + 1, next);
            let total = kept + 1 + all.main + all.delta;
            let is_past = most < total;
            if is_past {
                return Err(Fault::TooManyEntries);
            }
            Ok(with_open(state, used, all))
        }
        Err(fault) => Err(fault),
    }
}

// TN: the name of the next section.
pub fn on_test_name(state: State, name: Part) -> Result<State, Fault>
    ensures { (text words : List ℕ) (index limit : ℕ) → HoldsState text words index limit state → PartInside text name → StepBy (effect (test_name (part_in text name))) text words words index limit state result }
{
    let inside = state.inside;
    if inside {
        return Err(Fault::UnexpectedRecord);
    }
    Ok(with_closed(state.kept, state.delta, state.tombstones, state.used, name))
}

// SF: the path of the section, which has no other.
pub fn on_source_file(
    words: &mut [u64],
    index: usize,
    limit: usize,
    state: State,
    path: Part,
) -> Result<State, Fault>
    requires { StateRoom words.old index limit state }
    ensures { (text : List ℕ) → HoldsState text words.old index limit state → PartInside text path → StepBy (effect (source_file (part_in text path))) text words.old words.new index limit state result }
{
    let has_path = state.has_path;
    if has_path {
        return Err(Fault::SecondSourceFile);
    }
    let named = with_path(state, path);
    open_section(words, index, limit, named)
}

// The found and hit lines, which only open the section.
pub fn open_section(
    words: &mut [u64],
    index: usize,
    limit: usize,
    state: State,
) -> Result<State, Fault>
    requires { StateRoom words.old index limit state }
    ensures { (text : List ℕ) → HoldsState text words.old index limit state → StepBy ignored text words.old words.new index limit state result }
{
    let kept = state.kept;
    if limit + state.tombstones <= kept {
        return Err(Fault::TooManyEntries);
    }
    let used = reserve_row(words, index, state.used, limit, kept);
    Ok(with_open(state, used, state.sizes))
}

// end_of_record: commits the open section, all its items in main, unless it is empty.
pub fn on_end_of_record(
    text: &[u8],
    words: &mut [u64],
    index: usize,
    limit: usize,
    state: State,
) -> Result<State, Fault>
    requires { HoldsState text.now words.old index limit state }
    ensures { StepBy (effect end_of_record) text.now words.old words.new index limit state result }
{
    let none = Part { start: 0, len: 0 };
    let sizes = state.sizes;
    let used = state.used;
    if sizes.main + sizes.delta + sizes.tail == 0 {
        return Ok(with_closed(state.kept, state.delta, state.tombstones, used, none));
    }
    let spare = index + capacity(limit);
    let items = flush_all(text, words, index, used, spare, state.kept + 1, sizes);
    let test = state.test;
    let path = state.path;
    let key = Row {
        test: test.start as u64,
        test_len: test.len as u64,
        path: path.start as u64,
        path_len: path.len as u64,
        ..Row::default()
    };
    let after = commit_section(
        text,
        words,
        index,
        used,
        spare,
        kept_sizes(state),
        items,
        key,
        slack(limit),
    );
    let kept = after.main + after.delta;
    Ok(with_closed(kept, after.delta, after.tombstones, used, none))
}

// The end of the text: merges and compacts, so that all kept entries are in main. Answers how many there are.
pub fn finish(text: &[u8], words: &mut [u64], index: usize, limit: usize, state: State) -> usize
    requires { HoldsState text.now words.old index limit state }
    ensures { AllInMain text.now words.old words.new index state result }
{
    let used = state.used;
    let spare = index + capacity(limit);
    section_commit::merge_and_compact(text, words, index, used, spare, kept_sizes(state))
}
