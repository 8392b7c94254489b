// Ranges of lines (SPEC 8.1): "a lent slice of start and end pairs (u32) and a number of pairs used", a pair as
// the struct `model::Range`. The functions over the slice are thin: what they decide is decided by functions on numbers.
#![tactic(auto)]

ghost use Rattle.std.specs.Prelude.{◌≡◌, ◌&&◌, ◌||◌, ◌+◌, ◌-◌, ◌<◌, ◌^◌, min, leb, length, get_or, set};
ghost use Rattle.model.specs.Ranges.{query_call, insert_call};
ghost use Rattle.model.specs.Calls.{call_answer, InsertCall, ValueCall};
ghost use Rattle.line_num_pairs.specs.Pairs.{pair};
ghost use Rattle.line_num.specs.Scans.{scan_start, passes_by, stays_by, scanned_by, scan_of, scan_answer};
ghost use Rattle.line_num.specs.Steps.{plan_by, plan_of, answer_of, PlanFits, read_at, put_at, rewritten};

use model::{Fault, Range, Refusal};

// One pass over the ranges used: it queries the lines from start to end, and computes what an insert of them would
// write.
#[derive(Clone, Copy)]
struct Scan {
    start: u32,
    end: u32,
    // the ranges so far are in order, and the next has to start at `least` or later
    well: bool,
    least: u64,
    // one of them holds a queried line
    held: bool,
    // the range that is put down next, behind `at` others: the one to put in, or, once that is past, the one read last
    past: bool,
    low: u32,
    high: u32,
    at: usize,
}

fn scan_start(start: u32, end: u32) -> Scan
    ensures { result ≡ scan_start start end }
{
    Scan {
        start,
        end,
        well: true,
        least: 0,
        held: false,
        past: false,
        low: start,
        high: end,
        at: 0,
    }
}

fn in_order(well: bool, least: u64, x: Range) -> bool
    ensures { result ≡ (well && leb least x.start && leb x.start x.end) }
{
    if !well {
        return false;
    }
    if (x.start as u64) < least {
        return false;
    }
    x.start <= x.end
}

fn holds_one(held: bool, x: Range, start: u32, end: u32) -> bool
    ensures { result ≡ (held || (leb x.start end && leb start x.end)) }
{
    if held {
        return true;
    }
    if end < x.start {
        return false;
    }
    start <= x.end
}

// The next range to write is before x, with a line between: it is written now.
fn passes(found: Scan, x: Range) -> bool
    ensures { result ≡ passes_by found x }
{
    if found.past {
        return true;
    }
    if x.end as u64 + 1 < found.low as u64 {
        return false;
    }
    (found.high as u64) + 1 < x.start as u64
}

// x is before the range to insert, with a line between: it is written first.
fn stays(found: Scan, x: Range) -> bool
    ensures { result ≡ stays_by found x }
{
    if found.past {
        return false;
    }
    x.end as u64 + 1 < found.low as u64
}

// One more than `at`, at most `next`: a sum that always fits.
fn counted(at: usize, next: usize) -> usize
    ensures { result ≡ min (at + 1) next }
{
    at.saturating_add(1).min(next)
}

// The pass with one more range: x, at the place before `next`.
fn scanned(found: Scan, next: usize, x: Range) -> Scan
    ensures { result ≡ scanned_by found next x }
{
    let mut after = found;
    after.well = in_order(found.well, found.least, x);
    after.least = x.end as u64 + 2;
    after.held = holds_one(found.held, x, found.start, found.end);
    after.past = passes(found, x);
    if after.past {
        after.low = x.start;
        after.high = x.end;
        after.at = counted(found.at, next);
        return after;
    }
    if stays(found, x) {
        after.at = counted(found.at, next);
        return after;
    }
    after.low = found.low.min(x.start);
    after.high = found.high.max(x.end);
    after
}

// The pass over the ranges used, or over the whole slice where it is shorter.
fn scan_all(list: &[Range], used: usize, start: u32, end: u32) -> Scan
    ensures { result ≡ scan_of list.now used start end }
{
    let n = used.min(list.len());
    let mut found = scan_start(start, end);
    for i in 0..n {
        found = scanned(found, i + 1, list[i]);
    }
    found
}

fn query_answer(found: Scan, used: usize, len: usize) -> Result<bool, Refusal>
    ensures { result ≡ call_answer (scan_answer found used len) }
{
    if len < used {
        return Err(Refusal::from(Fault::MalformedRanges));
    }
    if !found.well {
        return Err(Refusal::from(Fault::MalformedRanges));
    }
    Ok(found.held)
}

// "A query (s, e) says yes if some pair has start ≤ e and end ≥ s."
pub fn query(list: &[Range], used: usize, s: u32, e: u32) -> Result<bool, Refusal>
    ensures { ValueCall (query_call list.now used s e) result }
{
    let found = scan_all(list, used, s, e);
    query_answer(found, used, list.len())
}

// The steps of an insert: the first `reads` read one range each and write them back with the new range among them; the
// others fill the positions from `from` on, with one range below position n and zeros behind.
#[derive(Clone, Copy)]
struct Plan {
    reads: usize,
    from: usize,
    n: usize,
    steps: usize,
    start: u32,
    end: u32,
    low: u32,
    high: u32,
}

// A range and its place.
#[derive(Clone, Copy)]
struct Put {
    at: usize,
    range: Range,
}

fn planned(found: Scan, reads: usize, from: usize, n: usize, steps: usize) -> Plan
    ensures { result ≡ plan_by found reads from n steps }
{
    Plan {
        reads,
        from,
        n,
        steps,
        start: found.start,
        end: found.end,
        low: found.low,
        high: found.high,
    }
}

// What is to be done after the pass. On a refusal nothing is, so that the slice stays as it is.
fn plan_of(found: Scan, used: usize, len: usize) -> Plan
    requires { len < 2 ^ 63 }
    ensures { result ≡ plan_of found used len }
{
    if len < used {
        return planned(found, 0, 0, 0, 0);
    }
    if !found.well {
        return planned(found, 0, 0, 0, 0);
    }
    if found.end < found.start {
        return planned(found, 0, used, used, len - used);
    }
    if found.at < len {
        return planned(found, used, found.at, found.at + 1, used + (len - found.at));
    }
    planned(found, 0, 0, 0, 0)
}

fn insert_answer(found: Scan, used: usize, len: usize) -> Result<usize, Refusal>
    ensures { result ≡ answer_of found used len }
{
    if len < used {
        return Err(Refusal::from(Fault::MalformedRanges));
    }
    if !found.well {
        return Err(Refusal::from(Fault::MalformedRanges));
    }
    if found.end < found.start {
        return Ok(used);
    }
    if found.at < len {
        return Ok(found.at + 1);
    }
    Err(Refusal::from(Fault::RangesFull))
}

// The position that a step reads.
fn read_at(plan: Plan, t: usize) -> usize
    requires { plan.from + (t - plan.reads) < 2 ^ 64 }
    ensures { result ≡ read_at plan t }
{
    if t < plan.reads {
        return t;
    }
    plan.from + (t - plan.reads)
}

// What a step that read x at position k writes where: at k or before it, so that every range is read before it is
// overwritten.
fn put_at(plan: Plan, found: Scan, t: usize, k: usize, x: Range) -> Put
    ensures { result ≡ put_at plan found t k x }
{
    if t < plan.reads {
        if passes(found, x) {
            return Put {
                at: found.at.min(k),
                range: Range {
                    start: found.low,
                    end: found.high,
                },
            };
        }
        if stays(found, x) {
            return Put {
                at: found.at.min(k),
                range: x,
            };
        }
        return Put { at: k, range: x };
    }
    if k < plan.n {
        return Put {
            at: k,
            range: Range {
                start: plan.low,
                end: plan.high,
            },
        };
    }
    Put {
        at: k,
        range: Range { start: 0, end: 0 },
    }
}

// Runs the steps in order: writing never passes reading.
fn rewrite(list: &mut [Range], plan: Plan)
    requires { PlanFits plan (length list.old) }
    ensures { list.new ≡ rewritten plan list.old }
{
    let mut found = scan_start(plan.start, plan.end);
    for t in 0..plan.steps {
        let k = read_at(plan, t);
        let x = list[k];
        let put = put_at(plan, found, t, k, x);
        let at = put.at;
        list[at] = put.range;
        found = scanned(found, t + 1, x);
    }
}

// "Insert drops start > end, joins overlaps and neighbours, answers the new number of pairs, zeroes those past it, and gives 15 exactly
// if the slice can't hold the result."
pub fn insert(list: &mut [Range], used: usize, start: u32, end: u32) -> Result<usize, Refusal>
    ensures { InsertCall (insert_call list.old used (pair start end)) list.old list.new result }
{
    let len = list.len();
    let found = scan_all(list, used, start, end);
    let plan = plan_of(found, used, len);
    rewrite(list, plan);
    insert_answer(found, used, len)
}

// The ranges of a list by value.
pub const LIST: usize = 8;

// What an insert answers, and the list afterwards.
#[derive(Clone, Copy)]
pub struct Inserted {
    pub answer: Result<usize, Refusal>,
    pub list: [Range; LIST],
}

// An insert into a list by value: who calls it holds no slice of structs.
pub fn insert_by_value(mut list: [Range; LIST], used: usize, start: u32, end: u32) -> Inserted
    ensures { InsertCall (insert_call list used (pair start end)) list result.list result.answer }
{
    let answer = insert(&mut list, used, start, end);
    Inserted { answer, list }
}

// A query of a list by value.
pub fn query_by_value(list: [Range; LIST], used: usize, s: u32, e: u32) -> Result<bool, Refusal>
    ensures { ValueCall (query_call list used s e) result }
{
    query(&list, used, s, e)
}
