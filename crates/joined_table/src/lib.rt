// Texts of a bundle read one after the other and joined in one table (SPEC 7.2): all of them, or those that are marked. What becomes of the
// table is the caller's: it is printed, counted or thrown away.
#![tactic(auto)]

ghost use Rattle.std.specs.Prelude.{◌≡◌, [], true, ◌≤◌, ◌<◌, length};
ghost use Rattle.model.specs.Limits.{max_texts, max_entries};
ghost use Rattle.model.specs.Answer.{in_text};
ghost use Rattle.model.specs.Bundle.{text_count};
ghost use Rattle.bundle.specs.Places.{text_from, TextsInside};
ghost use Rattle.model.specs.Gather.{entry_limit, gather_text, gather_texts, gather_bundle};
ghost use Rattle.section.specs.Reading.{SectionRoom};
ghost use Rattle.scratch_layout.specs.Layout.{index_at, ScratchRoom};
ghost use Rattle.joined_table.specs.Gathering.{in_text_of, joined_at, JoinedTable, ReadOne, ReadBehind, marked_texts, GatheredAs, BundleGathered};
ghost use Rattle.tag_table.specs.Tags.{tag_of};

use model::{Fault, Mode, Refusal};
use report_parser::TextRead;
use tag_table::Tags;

// A refusal, in the i-th text.
pub fn in_text(i: usize, refusal: Refusal) -> Refusal
    requires { i < max_texts }
    ensures { result ≡ in_text_of i refusal }
{
    let fault = refusal.fault;
    Refusal {
        fault,
        text: i as u32,
        line: refusal.line,
        field: refusal.field,
        needed: refusal.needed,
    }
}

// Reads the i-th text where it lies in the bundle.
fn read_one(
    tags: Tags,
    bundle: &[u8],
    body: usize,
    words: &mut [u64],
    limit: usize,
    i: usize,
) -> Result<TextRead, Refusal>
    requires texts_inside { TextsInside bundle.now body × (i < text_count bundle.now) × (limit ≤ max_entries) × SectionRoom words.old (index_at limit) limit }
    ensures { ReadOne (tag_of tags.entry) bundle.now body words.new limit i result }
{
    let part = bundle::text_part(bundle, body, i);
    let start = part.start;
    let end = start + part.len;
    let index = scratch_layout::index_at(limit);
    report_parser::read_lines(tags, &bundle[..end], start, words, index, limit)
}

// Reads the i-th text into the area behind the joined table.
fn read_behind(
    tags: Tags,
    bundle: &[u8],
    body: usize,
    scratch: &mut [u64],
    limit: usize,
    i: usize,
) -> Result<TextRead, Refusal>
    requires texts_inside { TextsInside bundle.now body × (i < text_count bundle.now) × ScratchRoom scratch.old limit }
    ensures { ReadBehind (tag_of tags.entry) bundle.now body scratch.old scratch.new limit i result }
{
    let base = scratch_layout::base_at(limit);
    read_one(tags, bundle, body, &mut scratch[base..], limit, i)
}

// Reads the i-th text behind the joined table and merges it.
fn gather_behind(
    tags: Tags,
    bundle: &[u8],
    body: usize,
    scratch: &mut [u64],
    limit: usize,
    n: usize,
    i: usize,
    mode: Mode,
) -> Result<usize, Refusal>
    requires texts_inside { TextsInside bundle.now body × (i < text_count bundle.now) × ScratchRoom scratch.old limit × JoinedTable bundle.now scratch.old limit n }
    ensures { GatheredAs (in_text i (gather_text (tag_of tags.entry) mode limit (text_from body bundle.now i).bytes (joined_at bundle.now scratch.old limit n))) bundle.now scratch.new limit result }
{
    match read_behind(tags, bundle, body, scratch, limit, i) {
        Err(refusal) => Err(in_text(i, refusal)),
        Ok(read) => {
            let base = scratch_layout::base_at(limit);
            let index = scratch_layout::index_at(limit);
            match merge::merge(
                bundle, scratch, base, index, limit, n, read.used, read.kept, mode,
            ) {
                Ok(joined) => Ok(joined),
                Err(fault) => Err(in_text(i, Refusal::from(fault))),
            }
        }
    }
}

// "for each text in turn, reads it and merges it [..] Then E is tested on what is joined so far". The first text is
// read into the joined table's area and is the joined table if all its rows are entries; otherwise it is read again
// behind it and merged.
fn gather_text(
    tags: Tags,
    bundle: &[u8],
    body: usize,
    scratch: &mut [u64],
    limit: usize,
    n: usize,
    i: usize,
    mode: Mode,
) -> Result<usize, Refusal>
    requires texts_inside { TextsInside bundle.now body × (i < text_count bundle.now) × ScratchRoom scratch.old limit × JoinedTable bundle.now scratch.old limit n }
    ensures { GatheredAs (in_text i (gather_text (tag_of tags.entry) mode limit (text_from body bundle.now i).bytes (joined_at bundle.now scratch.old limit n))) bundle.now scratch.new limit result }
{
    if n == 0 {
        let base = scratch_layout::base_at(limit);
        match read_one(tags, bundle, body, &mut scratch[..base], limit, i) {
            Err(refusal) => {
                return Err(in_text(i, refusal));
            }
            Ok(read) => {
                if read.kept == read.used {
                    return Ok(read.kept);
                }
                return gather_behind(tags, bundle, body, scratch, limit, 0, i, mode);
            }
        }
    }
    gather_behind(tags, bundle, body, scratch, limit, n, i, mode)
}

// "Gather begins with an empty report": the marked texts, one after the other.
fn gather_texts(
    tags: Tags,
    bundle: &[u8],
    body: usize,
    marks: &[u8],
    scratch: &mut [u64],
    limit: usize,
    mode: Mode,
) -> Result<usize, Refusal>
    requires texts_inside { TextsInside bundle.now body × ScratchRoom scratch.old limit }
    ensures { GatheredAs (gather_texts (tag_of tags.entry) mode limit (marked_texts body marks.now bundle.now) []) bundle.now scratch.new limit result }
{
    let count = bundle::text_count(bundle);
    let mut n = 0;
    let mut i = bundle::next_marked(marks, count, 0);
    // moves to the next text that is marked
    while i < count {
        n = gather_text(tags, bundle, body, scratch, limit, n, i, mode)?;
        i = bundle::next_marked(marks, count, i + 1);
    }
    Ok(n)
}

// The marked texts of a bundle whose text bytes begin at `body`; the scratch says how many entries there may be. Refusals name a text by its
// index in the whole bundle.
pub fn gather_marked(
    tags: Tags,
    bundle: &[u8],
    body: usize,
    marks: &[u8],
    scratch: &mut [u64],
    mode: Mode,
) -> Result<usize, Refusal>
    requires texts_inside { TextsInside bundle.now body }
    ensures { BundleGathered (gather_texts (tag_of tags.entry) mode (entry_limit (length scratch.old)) (marked_texts body marks.now bundle.now) []) bundle.now scratch.new (entry_limit (length scratch.old)) result }
{
    let limit = scratch_layout::entry_limit(scratch.len());
    gather_texts(tags, bundle, body, marks, scratch, limit, mode)
}

// All texts of a bundle that is well formed.
pub fn gather_bundle(
    tags: Tags,
    bundle: &[u8],
    scratch: &mut [u64],
    mode: Mode,
) -> Result<usize, Refusal>
    ensures { BundleGathered (gather_bundle (tag_of tags.entry) mode bundle.now (length scratch.old)) bundle.now scratch.new (entry_limit (length scratch.old)) result }
{
    if bundle::is_well_formed(bundle) {
        let body = bundle::body_at(bundle);
        return gather_marked(tags, bundle, body, b"", scratch, mode);
    }
    Err(Refusal::from(Fault::MalformedBundle))
}
