// A bundle of texts with revisions: n and T, little-endian u32, then n starts, n lengths, n run numbers and n revisions, then T text bytes.
#![tactic(auto)]

ghost use Rattle.std.specs.Prelude.{◌≡◌, true, ◌+◌, ◌*◌, ◌≤◌, ◌<◌, length};
ghost use Rattle.model.specs.Limits.{max_texts};
ghost use Rattle.model.specs.Bundle.{text_count};
ghost use Rattle.text_choice.specs.RevisionBundle.{well_formed_revisions, run_at, revision_at, is_highest, pair_at, same_pair, is_repeat};
ghost use Rattle.bundle_revisions.specs.Revisions.{Counted, is_higher, FirstRepeatAt, HighestMarked};

// A text's start, length, run number and revision.
const WIDTH: usize = 16;

// "its slice is 8 + 16n + T long"; otherwise as a bundle without revisions.
pub fn is_well_formed(bundle: &[u8]) -> bool
    ensures { result ≡ well_formed_revisions bundle.now }
{
    bundle::is_well_formed_as(bundle, WIDTH)
}

pub fn text_count(bundle: &[u8]) -> usize
    requires { well_formed_revisions bundle.now ≡ true }
    ensures { Counted bundle.now result }
{
    bundle::u32_at(bundle, 0)
}

// Where the text bytes begin, behind the four arrays.
pub fn body_at(bundle: &[u8]) -> usize
    requires { well_formed_revisions bundle.now ≡ true }
    ensures { result ≡ 8 + 16 * text_count bundle.now }
{
    bundle::SIZES + WIDTH * text_count(bundle)
}

// The run number of the i-th of n texts.
fn run_at(bundle: &[u8], n: usize, i: usize) -> usize
    requires { Counted bundle.now n × (i < n) }
    ensures { result ≡ run_at bundle.now i }
{
    bundle::u32_at(bundle, bundle::SIZES + 8 * n + 4 * i)
}

// The revision of the i-th of n texts.
fn revision_at(bundle: &[u8], n: usize, i: usize) -> usize
    requires { Counted bundle.now n × (i < n) }
    ensures { result ≡ revision_at bundle.now i }
{
    bundle::u32_at(bundle, bundle::SIZES + 12 * n + 4 * i)
}

// Texts j and i have one run number and one revision.
fn same_pair(bundle: &[u8], n: usize, j: usize, i: usize) -> bool
    requires { Counted bundle.now n × (j < n) × (i < n) }
    ensures { result ≡ same_pair (pair_at bundle.now j) (pair_at bundle.now i) }
{
    if run_at(bundle, n, j) != run_at(bundle, n, i) {
        return false;
    }
    revision_at(bundle, n, j) == revision_at(bundle, n, i)
}

// Text j is a higher revision of the run of text i.
fn is_higher(bundle: &[u8], n: usize, i: usize, j: usize) -> bool
    requires { Counted bundle.now n × (i < n) × (j < n) }
    ensures { result ≡ is_higher bundle.now i j }
{
    if run_at(bundle, n, i) != run_at(bundle, n, j) {
        return false;
    }
    revision_at(bundle, n, i) < revision_at(bundle, n, j)
}

// Some text before the i-th has its pair.
fn is_repeat(bundle: &[u8], n: usize, i: usize) -> bool
    requires { Counted bundle.now n × (i < n) }
    ensures { result ≡ is_repeat bundle.now i }
{
    for j in 0..i {
        if same_pair(bundle, n, j, i) {
            return true;
        }
    }
    false
}

// No text is a higher revision of the i-th's run.
fn is_highest(bundle: &[u8], n: usize, i: usize) -> bool
    requires { Counted bundle.now n × (i < n) }
    ensures { result ≡ is_highest bundle.now i }
{
    for j in 0..n {
        if is_higher(bundle, n, i, j) {
            return false;
        }
    }
    true
}

// "the index of the first text that repeats an earlier pair"; n where no text does.
pub fn first_repeat(bundle: &[u8]) -> usize
    requires { well_formed_revisions bundle.now ≡ true }
    ensures { FirstRepeatAt bundle.now result }
{
    let n = text_count(bundle);
    for i in 0..n {
        if is_repeat(bundle, n, i) {
            return i;
        }
    }
    n
}

// A byte for each text: 1 where it has the highest revision of its run, otherwise 0.
pub fn mark_highest(bundle: &[u8], marks: &mut [u8])
    requires { (well_formed_revisions bundle.now ≡ true) × (max_texts ≤ length marks.old) }
    ensures { HighestMarked bundle.now marks.new }
{
    let n = text_count(bundle);
    for i in 0..n {
        marks[i] = is_highest(bundle, n, i) as u8;
    }
}
