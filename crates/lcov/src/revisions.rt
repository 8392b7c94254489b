// The checked gather of a bundle with revisions: of each run the text with the highest revision, in the order of the bundle.
ghost use Rattle.std.specs.Prelude.{◌≡◌, true, length};
ghost use Rattle.model.specs.Calls.{WriteCall};
ghost use Rattle.model.specs.Tags.{default_tag};
ghost use Rattle.model.specs.TagTable.{tagged};
ghost use Rattle.text_choice.specs.Revisions.{gather_revisions};
ghost use Rattle.tag_table.specs.Tags.{tag_of};

use crate::print_joined;
use model::Refusal;
use tag_table::Tags;

// The texts with the highest revisions gathered, the joined report printed.
fn gather_chosen(
    tags: Tags,
    bundle: &[u8],
    scratch: &mut [u64],
    out: &mut [u8],
) -> Result<usize, Refusal>
    ensures { WriteCall (gather_revisions (tag_of tags.entry) bundle.now (length scratch.old) (length out.old)) out.old out.new result }
{
    let got = joined_revisions::gather_highest(tags, bundle, scratch);
    print_joined(tags, bundle, scratch, got, out)
}

// The checked gather of a bundle of the second kind. The texts of lower revisions are not read.
pub fn gather_revisions(
    bundle: &[u8],
    scratch: &mut [u64],
    out: &mut [u8],
) -> Result<usize, Refusal>
    ensures { WriteCall (gather_revisions default_tag bundle.now (length scratch.old) (length out.old)) out.old out.new result }
{
    gather_chosen(Tags::defaults(), bundle, scratch, out)
}

// The same under the tags of a lent table.
pub fn gather_revisions_tagged(
    tags: &[u8],
    bundle: &[u8],
    scratch: &mut [u64],
    out: &mut [u8],
) -> Result<usize, Refusal>
    ensures { WriteCall (tagged tags.now (λ tag. gather_revisions tag bundle.now (length scratch.old) (length out.old))) out.old out.new result }
{
    let tags = tag_table::load(tags)?;
    gather_chosen(tags, bundle, scratch, out)
}
