// Ranges of lines (SPEC 8.1): "a lent slice of start and end pairs (u32) and a number of pairs used". A pair is
// an array of two, start and end.
#![tactic(auto)]

ghost use Rattle.std.specs.Prelude.{◌≡◌, true, ◌∷◌, ◌+◌, ◌-◌, ◌≤◌, ◌<◌, min, max, length, take};
ghost use Rattle.table.specs.Places.{PartitionPoint};
ghost use Rattle.model.specs.Ranges.{well_formed_ranges, half_open, join_into, insert_call, holds, query_call};
ghost use Rattle.model.specs.Calls.{InsertCall, ValueCall};
ghost use Rattle.line_num_pairs.specs.Pairs.{pair, range_at, span, ranges_in, EndsBefore, RangePlaced, Carried, Cleared, replaced_by, filled_up};

use model::{Fault, Range, Refusal};

// "Half-open a..b becomes a to b − 1, with b = 0 read as b = 1."
#[tactic(auto, unfolding(model::specs::Ranges::half_open))]
pub fn half_open(a: u32, b: u32) -> Range
    ensures { result ≡ half_open a b }
{
    Range {
        start: a,
        end: b.saturating_sub(1),
    }
}

fn range_at(pairs: &[[u32; 2]], k: usize) -> Range
    requires { k < length pairs.now }
    ensures { result ≡ range_at pairs.now k }
{
    Range {
        start: pairs[k][0],
        end: pairs[k][1],
    }
}

fn put_range(pairs: &mut [[u32; 2]], k: usize, range: Range)
    requires { k < length pairs.old }
    ensures { RangePlaced (range_at pairs.old) (range_at pairs.new) k range }
{
    pairs[k] = [range.start, range.end];
}

// "Well formed: used at most the slice, start ≤ end, ascending, a gap of at least one line between." The next start is at least `least`.
pub fn is_well_formed(pairs: &[[u32; 2]], used: usize) -> bool
    ensures { result ≡ well_formed_ranges (ranges_in pairs.now) used }
{
    if pairs.len() < used {
        return false;
    }
    let mut least: u64 = 0;
    for k in 0..used {
        let range = range_at(pairs, k);
        if (range.start as u64) < least {
            return false;
        }
        if range.end < range.start {
            return false;
        }
        least = range.end as u64 + 2;
    }
    true
}

// Binary search: how many pairs end more than one line before a line.
fn ends_before(pairs: &[[u32; 2]], used: usize, line: u64) -> usize
    requires { well_formed_ranges (ranges_in pairs.now) used ≡ true }
    ensures places { (result ≤ used) × (used ≤ length pairs.now) }
    ensures cut { PartitionPoint (EndsBefore pairs.now line) used result }
{
    let mut lo = 0;
    let mut hi = used;
    // the range that is searched is halved
    while lo < hi {
        let mid = lo + (hi - lo) / 2;
        let range = range_at(pairs, mid);
        if range.end as u64 + 1 < line {
            lo = mid + 1;
        } else {
            hi = mid;
        }
    }
    lo
}

// "A query (s, e) says yes if some pair has start ≤ e and end ≥ s": the first that ends at s or later is the only one to ask.
pub fn holds_at(pairs: &[[u32; 2]], used: usize, s: u32, e: u32) -> bool
    requires { well_formed_ranges (ranges_in pairs.now) used ≡ true }
    ensures { result ≡ holds (take used (ranges_in pairs.now)) s e }
{
    let first = ends_before(pairs, used, s as u64 + 1);
    if first == used {
        return false;
    }
    range_at(pairs, first).start <= e
}

pub fn query(pairs: &[[u32; 2]], used: usize, s: u32, e: u32) -> Result<bool, Refusal>
    ensures { ValueCall (query_call (ranges_in pairs.now) used s e) result }
{
    if !is_well_formed(pairs, used) {
        return Err(Refusal::from(Fault::MalformedRanges));
    }
    Ok(holds_at(pairs, used, s, e))
}

// A range that took in others, and the place of the first pair behind it.
#[derive(Clone, Copy)]
struct Joined {
    range: Range,
    past: usize,
}

// "joins overlaps and neighbours": the pairs from `first` on that the range meets.
fn join_from(pairs: &[[u32; 2]], used: usize, first: usize, range: Range) -> Joined
    requires { (used ≤ length pairs.now) × (range.start ≤ range.end) × PartitionPoint (EndsBefore pairs.now range.start) used first }
    ensures places { (first ≤ result.past) × (result.past ≤ used) }
    ensures joined { join_into range (span (range_at pairs.now) first (used - first)) ≡ result.range ∷ span (range_at pairs.now) result.past (used - result.past) }
{
    let mut start = range.start;
    let mut end = range.end;
    for past in first..used {
        let next = range_at(pairs, past);
        if end as u64 + 1 < next.start as u64 {
            return Joined {
                range: Range { start, end },
                past,
            };
        }
        start = start.min(next.start);
        end = end.max(next.end);
    }
    Joined {
        range: Range { start, end },
        past: used,
    }
}

// Moves the pairs from `past` on to behind position `first`.
fn move_pairs(pairs: &mut [[u32; 2]], used: usize, first: usize, past: usize)
    requires { (first ≤ past) × (past ≤ used) × (used ≤ length pairs.old) × (first + 1 + (used - past) ≤ length pairs.old) }
    ensures { Carried (range_at pairs.old) (range_at pairs.new) past (first + 1) (used - past) }
{
    pairs.copy_within(past..used, first + 1);
}

// Zeros from place `from` to the end of the slice.
fn clear_from(pairs: &mut [[u32; 2]], from: usize)
    ensures { Cleared (range_at pairs.old) (range_at pairs.new) from (length pairs.old) }
{
    if from < pairs.len() {
        pairs[from..].fill([0, 0]);
    }
}

// A range in place of the pairs from `first` up to `past`, and zeros behind those used.
fn put_joined(pairs: &mut [[u32; 2]], used: usize, first: usize, joined: Joined)
    requires { (first ≤ joined.past) × (joined.past ≤ used) × (used ≤ length pairs.old) × (first + 1 + (used - joined.past) ≤ length pairs.old) }
    ensures { ranges_in pairs.new ≡ filled_up pairs.old (replaced_by (range_at pairs.old) used first joined.range joined.past) }
{
    move_pairs(pairs, used, first, joined.past);
    put_range(pairs, first, joined.range);
    clear_from(pairs, first + 1 + (used - joined.past));
}

// "Insert drops start > end, joins overlaps and neighbours, answers the new number of pairs, zeroes those past it, and gives 15 exactly
// if the slice can't hold the result."
pub fn insert(pairs: &mut [[u32; 2]], used: usize, start: u32, end: u32) -> Result<usize, Refusal>
    ensures { InsertCall (insert_call (ranges_in pairs.old) used (pair start end)) (ranges_in pairs.old) (ranges_in pairs.new) result }
{
    if !is_well_formed(pairs, used) {
        return Err(Refusal::from(Fault::MalformedRanges));
    }
    if end < start {
        clear_from(pairs, used);
        return Ok(used);
    }
    let first = ends_before(pairs, used, start as u64);
    let joined = join_from(pairs, used, first, Range { start, end });
    let n = first + 1 + (used - joined.past);
    if pairs.len() < n {
        return Err(Refusal::from(Fault::RangesFull));
    }
    put_joined(pairs, used, first, joined);
    Ok(n)
}
