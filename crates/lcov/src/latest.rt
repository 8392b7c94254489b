// Coverage over the latest texts of a bundle: for each text how many lines were hit and found in the gather of its window.
ghost use Rattle.std.specs.Prelude.{◌≡◌, true, length};
ghost use Rattle.model.specs.Calls.{WriteCall};
ghost use Rattle.model.specs.Tags.{default_tag};
ghost use Rattle.model.specs.TagTable.{tagged, tags_of, are_tags};
ghost use Rattle.text_choice.specs.Windows.{gather_windows};

use model::Refusal;
use tag_table::Tags;

// For each text a line `hit/found` over the lines of the checked gather of that text and the up to width − 1 before it.
pub fn windows(
    bundle: &[u8],
    width: u32,
    scratch: &mut [u64],
    out: &mut [u8],
) -> Result<usize, Refusal>
    ensures { WriteCall (gather_windows default_tag bundle.now width (length scratch.old) (length out.old)) out.old out.new result }
{
    window_lines::print_windows(Tags::defaults(), bundle, width as usize, scratch, out)
}

// The same under the tags of a lent table.
pub fn windows_tagged(
    tags: &[u8],
    bundle: &[u8],
    width: u32,
    scratch: &mut [u64],
    out: &mut [u8],
) -> Result<usize, Refusal>
    ensures { WriteCall (tagged tags.now (λ tag. gather_windows tag bundle.now width (length scratch.old) (length out.old))) out.old out.new result }
{
    let tags = tag_table::load(tags)?;
    window_lines::print_windows(tags, bundle, width as usize, scratch, out)
}
