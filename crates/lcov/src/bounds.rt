// Bounds of sampled counts: how many lines, functions and branches a run can have hit whose counts are known by two texts.
ghost use Rattle.std.specs.Prelude.{◌≡◌, length};
ghost use Rattle.model.specs.Calls.{call_answer};
ghost use Rattle.model.specs.Tags.{default_tag};
ghost use Rattle.model.specs.TagTable.{tagged};
ghost use Rattle.model_bounds.specs.Bounds.{hit_bounds};

use model::Refusal;
use model_bounds::Bounds;
use tag_table::Tags;

// The hit numbers of the least counts and of the greatest. Both texts must hold the same keys, and no least count may be above its greatest.
pub fn hit_bounds(least: &[u8], greatest: &[u8], scratch: &mut [u64]) -> Result<Bounds, Refusal>
    ensures { result ≡ call_answer (hit_bounds default_tag least.now greatest.now (length scratch.old)) }
{
    hit_bounds::find_bounds(Tags::defaults(), least, greatest, scratch)
}

// The same under the tags of a lent table.
pub fn hit_bounds_tagged(
    tags: &[u8],
    least: &[u8],
    greatest: &[u8],
    scratch: &mut [u64],
) -> Result<Bounds, Refusal>
    ensures { result ≡ call_answer (tagged tags.now (λ tag. hit_bounds tag least.now greatest.now (length scratch.old))) }
{
    let tags = tag_table::load(tags)?;
    hit_bounds::find_bounds(tags, least, greatest, scratch)
}
