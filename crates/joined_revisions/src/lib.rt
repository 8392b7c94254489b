// Of a bundle with revisions, the texts with the highest revision of each run joined in one table. The others are not read.
#![tactic(auto)]

ghost use Rattle.std.specs.Prelude.{◌≡◌, true, ◌<◌, length};
ghost use Rattle.model.specs.Limits.{max_texts};
ghost use Rattle.model.specs.Gather.{entry_limit};
ghost use Rattle.text_choice.specs.Revisions.{gather_highest};
ghost use Rattle.joined_table.specs.Gathering.{BundleGathered};
ghost use Rattle.joined_revisions.specs.Repeats.{repeat_at};
ghost use Rattle.tag_table.specs.Tags.{tag_of};

use model::{Fault, Mode, Refusal};
use tag_table::Tags;

const MAX_TEXTS: usize = bundle::MAX_TEXTS;

// Refusal 20: the i-th text repeats an earlier pair.
fn repeated(i: usize) -> Refusal
    requires { i < max_texts }
    ensures { result ≡ repeat_at i }
{
    Refusal {
        fault: Fault::RepeatedRevision,
        text: i as u32,
        line: 0,
        field: 0,
        needed: 0,
    }
}

// "Of each run only the text with the highest revision is gathered."
pub fn gather_highest(tags: Tags, bundle: &[u8], scratch: &mut [u64]) -> Result<usize, Refusal>
    ensures { BundleGathered (gather_highest (tag_of tags.entry) bundle.now (length scratch.old)) bundle.now scratch.new (entry_limit (length scratch.old)) result }
{
    if bundle_revisions::is_well_formed(bundle) {
        let repeat = bundle_revisions::first_repeat(bundle);
        if repeat < bundle_revisions::text_count(bundle) {
            return Err(repeated(repeat));
        }
        let mut marks = [0u8; MAX_TEXTS];
        bundle_revisions::mark_highest(bundle, &mut marks);
        let body = bundle_revisions::body_at(bundle);
        return joined_table::gather_marked(tags, bundle, body, &marks, scratch, Mode::Checked);
    }
    Err(Refusal::from(Fault::MalformedBundle))
}
