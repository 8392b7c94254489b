// A quota of entries for each lab (SPEC 7.7): each lab's texts are gathered by themselves, and the lab is marked. Then the texts of the labs that
// are let in are gathered together.
#![tactic(auto)]

ghost use Rattle.std.specs.Prelude.{◌≡◌, [], true, ℕ, ◌*◌, ◌≤◌, ◌<◌, length};
ghost use Rattle.model.specs.declared.Mode.TheVariants.{Checked};
ghost use Rattle.model.specs.Limits.{max_texts, max_labs};
ghost use Rattle.model.specs.Lists.{all};
ghost use Rattle.model.specs.Bundle.{text_count, text_at, well_formed};
ghost use Rattle.model.specs.Gather.{entry_limit, gather_texts};
ghost use Rattle.text_choice.specs.Choice.{choose_texts};
ghost use Rattle.text_choice.specs.Quotas.{is_lab, are_labs, lab_contents, mark_words, mark_of, let_in_texts};
ghost use Rattle.format.specs.Put.{over};
ghost use Rattle.bundle.specs.Marks.{MarkedAs};
ghost use Rattle.joined_table.specs.Gathering.{in_text_of, BundleGathered};
ghost use Rattle.lab_quotas.specs.Labs.{mark_size, is_of_lab, rank_of, lab_mark, is_let_in_by, is_in_by, marks_to, LabsGathered};
ghost use Rattle.tag_table.specs.Tags.{tag_of};

use model::{Fault, Mode, Refusal};
use tag_table::Tags;
use text_choice::Mark;

const MAX_TEXTS: usize = bundle::MAX_TEXTS;

// Labs are numbered from 1 to 8: `max_labs` in model/specs/Limits.antt.
const LABS: usize = 8;

// The words of a mark: `mark_size`.
const MARK_WORDS: usize = 5;

const MARKS: usize = LABS * MARK_WORDS;

fn is_lab(lab: u8) -> bool
    ensures { result ≡ is_lab lab }
{
    (1..=8).contains(&lab)
}

fn all_labs(labs: &[u8]) -> bool
    ensures { result ≡ all is_lab labs.now }
{
    for lab in labs {
        if !is_lab(*lab) {
            return false;
        }
    }
    true
}

// "a lab number outside 1 to 8, or a count of lab numbers other than n", or another number of quotas than of labs.
fn are_labs(bundle: &[u8], labs: &[u8], quotas: &[u32]) -> bool
    requires { 8 ≤ length bundle.now }
    ensures { result ≡ are_labs bundle.now labs.now quotas.now }
{
    if labs.len() != bundle::text_count(bundle) {
        return false;
    }
    if all_labs(labs) {
        return quotas.len() == LABS;
    }
    false
}

// A byte for each text: 1 where it is the lab's, otherwise 0.
fn mark_lab(labs: &[u8], lab: u8, chosen: &mut [u8])
    requires { length labs.now ≤ length chosen.old }
    ensures { MarkedAs (is_of_lab labs.now lab) (length labs.now) chosen.new }
{
    for i in 0..labs.len() {
        chosen[i] = (lab == labs[i]) as u8;
    }
}

// How many of the texts before the i-th are the lab's.
fn rank(labs: &[u8], lab: u8, i: usize) -> usize
    requires { i ≤ length labs.now }
    ensures { (result ≡ rank_of (is_of_lab labs.now lab) i) × (result ≤ i) }
{
    labs[..i].iter().filter(|other| lab == **other).count()
}

// A refusal of a lab's gather: its "text index counts that lab's texts only".
fn in_lab(labs: &[u8], lab: u8, refusal: Refusal) -> Refusal
    requires { (refusal.text < length labs.now) × (length labs.now ≤ max_texts) }
    ensures { result ≡ in_text_of (rank_of (is_of_lab labs.now lab) refusal.text) refusal }
{
    let i = rank(labs, lab, refusal.text as usize);
    joined_table::in_text(i, refusal)
}

// A lab is let in with no more entries than its quota.
fn mark_entries(entries: usize, quota: usize) -> Mark
    ensures { result ≡ lab_mark quota entries }
{
    if quota < entries {
        return Mark::OverQuota(entries);
    }
    Mark::LetIn(entries)
}

// "Each lab's texts are first gathered by themselves."
fn gather_lab(
    tags: Tags,
    bundle: &[u8],
    labs: &[u8],
    lab: u8,
    quota: u32,
    scratch: &mut [u64],
) -> Mark
    requires bundle_value { (well_formed bundle.now ≡ true) × (length labs.now ≡ text_count bundle.now) }
    ensures { result ≡ mark_of (tag_of tags.entry) (entry_limit (length scratch.old)) quota (lab_contents bundle.now labs.now lab) }
{
    let mut chosen = [0u8; MAX_TEXTS];
    mark_lab(labs, lab, &mut chosen);
    let body = bundle::body_at(bundle);
    match joined_table::gather_marked(tags, bundle, body, &chosen, scratch, Mode::Checked) {
        Err(refusal) => Mark::RefusedLab(in_lab(labs, lab, refusal)),
        Ok(entries) => mark_entries(entries, quota as usize),
    }
}

// The words of a mark: its state, then its entries, or its refusal.
fn mark_words(mark: Mark) -> [u64; MARK_WORDS]
    ensures { result ≡ mark_words mark }
{
    match mark {
        Mark::LetIn(entries) => [0, entries as u64, 0, 0, 0],
        Mark::OverQuota(entries) => [1, entries as u64, 0, 0, 0],
        Mark::RefusedLab(refusal) => {
            let fault = refusal.fault;
            let number = u32::from(fault);
            [
                2,
                number as u64,
                refusal.text as u64,
                refusal.line as u64,
                refusal.field as u64,
            ]
        }
    }
}

// A mark's words at the front of out.
fn put_mark(words: [u64; MARK_WORDS], out: &mut [u64])
    requires { mark_size ≤ length out.old }
    ensures { out.new ≡ over words out.old }
{
    out[..MARK_WORDS].copy_from_slice(&words);
}

// The marks of labs 1 to 8, in order, at the front of marks.
fn mark_labs(
    tags: Tags,
    bundle: &[u8],
    labs: &[u8],
    quotas: &[u32],
    scratch: &mut [u64],
    marks: &mut [u64],
)
    requires bundle_value { (well_formed bundle.now ≡ true) × (are_labs bundle.now labs.now quotas.now ≡ true) × (max_labs * mark_size ≤ length marks.old) }
    ensures { marks.new ≡ over (marks_to (tag_of tags.entry) (entry_limit (length scratch.old)) bundle.now labs.now quotas.now max_labs) marks.old }
{
    for i in 0..LABS {
        let mark = gather_lab(tags, bundle, labs, i as u8 + 1, quotas[i], scratch);
        let at = MARK_WORDS * i;
        put_mark(mark_words(mark), &mut marks[at..]);
    }
}

// Whether a lab is let in, by the first word of its mark.
fn is_let_in(marks: &[u64], lab: u8) -> bool
    requires { (is_lab lab ≡ true) × (max_labs * mark_size ≤ length marks.now) }
    ensures { result ≡ is_let_in_by marks.now lab }
{
    let at = MARK_WORDS * (lab as usize - 1);
    marks[at] == 0
}

// A byte for each text: 1 where its lab is let in, otherwise 0.
fn mark_let_in(labs: &[u8], marks: &[u64], chosen: &mut [u8])
    requires { (all is_lab labs.now ≡ true) × (max_labs * mark_size ≤ length marks.now) × (length labs.now ≤ length chosen.old) }
    ensures { MarkedAs (is_in_by marks.now labs.now) (length labs.now) chosen.new }
{
    for i in 0..labs.len() {
        chosen[i] = is_let_in(marks, labs[i]) as u8;
    }
}

// The texts of the labs that are let in, in the order of the bundle.
fn gather_let_in(
    tags: Tags,
    bundle: &[u8],
    labs: &[u8],
    marks: &[u64],
    scratch: &mut [u64],
) -> Result<usize, Refusal>
    requires bundle_value { (well_formed bundle.now ≡ true) × (length labs.now ≡ text_count bundle.now) × (all is_lab labs.now ≡ true) × (max_labs * mark_size ≤ length marks.now) }
    ensures { BundleGathered (gather_texts (tag_of tags.entry) Checked (entry_limit (length scratch.old)) (choose_texts (is_in_by marks.now labs.now) (text_at bundle.now) 0 (text_count bundle.now)) []) bundle.now scratch.new (entry_limit (length scratch.old)) result }
{
    let mut chosen = [0u8; MAX_TEXTS];
    mark_let_in(labs, marks, &mut chosen);
    let body = bundle::body_at(bundle);
    joined_table::gather_marked(tags, bundle, body, &chosen, scratch, Mode::Checked)
}

// Marks all labs, and gathers the texts of those that are let in.
fn gather_marked_labs(
    tags: Tags,
    bundle: &[u8],
    labs: &[u8],
    quotas: &[u32],
    scratch: &mut [u64],
    marks: &mut [u64],
) -> Result<usize, Refusal>
    requires bundle_value { (well_formed bundle.now ≡ true) × (are_labs bundle.now labs.now quotas.now ≡ true) × (max_labs * mark_size ≤ length marks.old) }
    ensures marked { marks.new ≡ over (marks_to (tag_of tags.entry) (entry_limit (length scratch.old)) bundle.now labs.now quotas.now max_labs) marks.old }
    ensures joint { BundleGathered (gather_texts (tag_of tags.entry) Checked (entry_limit (length scratch.old)) (let_in_texts (tag_of tags.entry) (entry_limit (length scratch.old)) bundle.now labs.now quotas.now) []) bundle.now scratch.new (entry_limit (length scratch.old)) result }
{
    mark_labs(tags, bundle, labs, quotas, scratch, marks);
    gather_let_in(tags, bundle, labs, marks, scratch)
}

// The joint gather of a bundle, and the marks of all labs where the slice holds them. 29 comes right after 16.
pub fn gather_labs(
    tags: Tags,
    bundle: &[u8],
    labs: &[u8],
    quotas: &[u32],
    scratch: &mut [u64],
    marks: &mut [u64],
) -> Result<usize, Refusal>
    ensures { LabsGathered (tag_of tags.entry) bundle.now labs.now quotas.now (length scratch.old) scratch.new marks.old marks.new result }
{
    if bundle::is_well_formed(bundle) {
        if are_labs(bundle, labs, quotas) {
            if marks.len() < MARKS {
                let mut own = [0u64; MARKS];
                return gather_marked_labs(tags, bundle, labs, quotas, scratch, &mut own);
            }
            return gather_marked_labs(tags, bundle, labs, quotas, scratch, marks);
        }
        return Err(Refusal::from(Fault::MalformedLabs));
    }
    Err(Refusal::from(Fault::MalformedBundle))
}
