// The page of totals of a bundle. The report is not printed, so its length does not matter.
ghost use Rattle.std.specs.Prelude.{◌≡◌, true, length};
ghost use Rattle.model.specs.Calls.{WriteCall};
ghost use Rattle.model.specs.Tags.{default_tag};
ghost use Rattle.model.specs.TagTable.{tagged};
ghost use Rattle.model.specs.Gather.{entry_limit};
ghost use Rattle.model_totals.specs.Totals.{page};
ghost use Rattle.model_totals.specs.Totals.{totals as totalsPage};
ghost use Rattle.joined_table.specs.Gathering.{seen_bundle, HeldBundle};
ghost use Rattle.lcov.specs.Printed.{printed_by};
ghost use Rattle.tag_table.specs.Tags.{tag_of};

use model::{Mode, Refusal};
use tag_table::Tags;

// The page of what was gathered of a bundle, or why there is none.
fn print_page(
    bundle: &[u8],
    scratch: &[u64],
    got: Result<usize, Refusal>,
    out: &mut [u8],
) -> Result<usize, Refusal>
    requires { HeldBundle bundle.now scratch.now (entry_limit (length scratch.now)) got }
    ensures { WriteCall (printed_by page (seen_bundle bundle.now scratch.now (entry_limit (length scratch.now)) got) (length out.old)) out.old out.new result }
{
    let n = got?;
    let limit = scratch_layout::entry_limit(scratch.len());
    let index = scratch_layout::index_at(limit);
    print_totals::print_page(bundle, scratch, index, n, out)
}

// The texts of a bundle gathered, checked, and the page of the joined report written.
fn write_page(
    tags: Tags,
    bundle: &[u8],
    scratch: &mut [u64],
    out: &mut [u8],
) -> Result<usize, Refusal>
    ensures { WriteCall (totalsPage (tag_of tags.entry) bundle.now (length scratch.old) (length out.old)) out.old out.new result }
{
    let got = joined_table::gather_bundle(tags, bundle, scratch, Mode::Checked);
    print_page(bundle, scratch, got, out)
}

// Gathers a bundle, checked, and writes the page of totals: for each section how many functions, branches and lines were hit and found.
pub fn totals(bundle: &[u8], scratch: &mut [u64], out: &mut [u8]) -> Result<usize, Refusal>
    ensures { WriteCall (totalsPage default_tag bundle.now (length scratch.old) (length out.old)) out.old out.new result }
{
    write_page(Tags::defaults(), bundle, scratch, out)
}

// The same under the tags of a lent table.
pub fn totals_tagged(
    tags: &[u8],
    bundle: &[u8],
    scratch: &mut [u64],
    out: &mut [u8],
) -> Result<usize, Refusal>
    ensures { WriteCall (tagged tags.now (λ tag. totalsPage tag bundle.now (length scratch.old) (length out.old))) out.old out.new result }
{
    let tags = tag_table::load(tags)?;
    write_page(tags, bundle, scratch, out)
}
