// A quota of entries for each lab: each lab's texts are gathered by themselves and marked, and the texts of the labs that are let in are
// gathered together.
ghost use Rattle.std.specs.Prelude.{◌≡◌, true, length};
ghost use Rattle.model.specs.Tags.{default_tag};
ghost use Rattle.model.specs.TagTable.{tagged};
ghost use Rattle.text_choice.specs.Quotas.{gather_quotas};
ghost use Rattle.lcov.specs.Quotas.{QuotasCall};
ghost use Rattle.tag_table.specs.Tags.{tag_of};

use crate::print_joined;
use model::Refusal;
use tag_table::Tags;

// The labs marked, and the joint report printed.
fn gather_let_in(
    tags: Tags,
    bundle: &[u8],
    labs: &[u8],
    quotas: &[u32],
    scratch: &mut [u64],
    out: &mut [u8],
    marks: &mut [u64],
) -> Result<usize, Refusal>
    ensures { QuotasCall (gather_quotas (tag_of tags.entry) bundle.now labs.now quotas.now (length scratch.old) (length out.old)) out.old out.new marks.old marks.new result }
{
    let got = lab_quotas::gather_labs(tags, bundle, labs, quotas, scratch, marks);
    print_joined(tags, bundle, scratch, got, out)
}

// The checked gather of the labs whose own gather is accepted and has no more entries than their quota. The marks of all labs go to marks, five
// words each, where it holds them all.
pub fn gather_quotas(
    bundle: &[u8],
    labs: &[u8],
    quotas: &[u32],
    scratch: &mut [u64],
    out: &mut [u8],
    marks: &mut [u64],
) -> Result<usize, Refusal>
    ensures { QuotasCall (gather_quotas default_tag bundle.now labs.now quotas.now (length scratch.old) (length out.old)) out.old out.new marks.old marks.new result }
{
    gather_let_in(Tags::defaults(), bundle, labs, quotas, scratch, out, marks)
}

// The same under the tags of a lent table.
pub fn gather_quotas_tagged(
    tags: &[u8],
    bundle: &[u8],
    labs: &[u8],
    quotas: &[u32],
    scratch: &mut [u64],
    out: &mut [u8],
    marks: &mut [u64],
) -> Result<usize, Refusal>
    ensures { QuotasCall (tagged tags.now (λ tag. gather_quotas tag bundle.now labs.now quotas.now (length scratch.old) (length out.old))) out.old out.new marks.old marks.new result }
{
    let tags = tag_table::load(tags)?;
    gather_let_in(tags, bundle, labs, quotas, scratch, out, marks)
}
