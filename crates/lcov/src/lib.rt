// The calls that read texts (SPEC 1.6): a bundle gathered, checked or lossy, one text read, and one filtered, with two rules for where a
// function ends, each printed to the output; the page of totals of a bundle, the gather of a bundle with revisions, coverage over the latest texts,
// the gather of labs under quotas, and bounds of sampled counts; beside them the calls for one line, for range lists, and for paths and bytes. This
// is the public surface.
// The scratch is lent; "After a call the scratch is free to hold anything, and no call reads what it held."
#![tactic(auto)]

mod bounds;
mod latest;
mod lines;
mod page;
mod quotas;
mod revisions;

ghost use Rattle.std.specs.Prelude.{◌≡◌, true, length};
ghost use Rattle.model.specs.declared.Bound.TheVariants.{NextStart, GreaterStart};
ghost use Rattle.model.specs.declared.Mode.TheVariants.{Checked, Lossy};
ghost use Rattle.model.specs.Answer.{accepted};
ghost use Rattle.model.specs.declared.Kind.{Kind};
ghost use Rattle.model.specs.Bytes.{Bytes};
ghost use Rattle.model.specs.Tags.{default_tag};
ghost use Rattle.model.specs.TagTable.{load_tags, tagged};
ghost use Rattle.model.specs.Calls.{WriteCall};
ghost use Rattle.model.specs.Gather.{entry_limit};
ghost use Rattle.model.specs.Gather.{gather as gatherOf};
ghost use Rattle.model.specs.Filter.{filter_text};
ghost use Rattle.model.specs.Printing.{print_report};
ghost use Rattle.line_num_pairs.specs.Pairs.{ranges_in};
ghost use Rattle.joined_table.specs.Gathering.{seen_bundle, HeldBundle};
ghost use Rattle.lcov.specs.Printed.{printed_by};
ghost use Rattle.lcov.specs.Demand.{GatherCall, ReadCall, GatherTagged, ReadTagged, AcceptsAndWrites};
ghost use Rattle.tag_table.specs.Tags.{tag_of};

pub use bounds::{hit_bounds, hit_bounds_tagged};
pub use compare::{compare_bytes, compare_paths};
pub use latest::{windows, windows_tagged};
pub use line_num::{
    insert as insert_into_structs, insert_by_value, query as query_structs, query_by_value,
};
pub use line_num_pairs::{half_open, insert, query};
pub use lines::{
    line_len, print_line, print_line_data, print_line_data_tagged, print_line_tagged, read_line,
    read_line_tagged, read_record, read_record_tagged,
};
use model::{Bound, Fault, Mode, Refusal};
pub use page::{totals, totals_tagged};
pub use quotas::{gather_quotas, gather_quotas_tagged};
pub use record_parse::read_number;
use report_parser::TextRead;
pub use revisions::{gather_revisions, gather_revisions_tagged};
use tag_table::Tags;

// The fixed numbers of model/specs/Limits.antt that code outside needs too: `words_per_entry`, and the scratch and the output of the program
// `gather`, which `program_words` and `program_output` are.
pub const WORDS_PER_ENTRY: usize = scratch_layout::WORDS_PER_ENTRY;

pub const PROGRAM_WORDS: usize = 8192;

pub const PROGRAM_OUTPUT: usize = 65_536;

// What was gathered of a bundle printed: the joined report, or why there is none.
fn print_joined(
    tags: Tags,
    bundle: &[u8],
    scratch: &mut [u64],
    got: Result<usize, Refusal>,
    out: &mut [u8],
) -> Result<usize, Refusal>
    requires { HeldBundle bundle.now scratch.old (entry_limit (length scratch.old)) got }
    ensures { WriteCall (printed_by (print_report (tag_of tags.entry)) (seen_bundle bundle.now scratch.old (entry_limit (length scratch.old)) got) (length out.old)) out.old out.new result }
{
    let n = got?;
    let limit = scratch_layout::entry_limit(scratch.len());
    let index = scratch_layout::index_at(limit);
    let spare = scratch_layout::spare_at(limit);
    print_report::print_report(tags, bundle, scratch, index, n, n, spare, out)
}

// The texts of a bundle gathered in one of the two modes, the joined report printed.
fn gather(
    tags: Tags,
    bundle: &[u8],
    scratch: &mut [u64],
    out: &mut [u8],
    mode: Mode,
) -> Result<usize, Refusal>
    ensures { WriteCall (gatherOf (tag_of tags.entry) mode bundle.now (length scratch.old) (length out.old)) out.old out.new result }
{
    let got = joined_table::gather_bundle(tags, bundle, scratch, mode);
    print_joined(tags, bundle, scratch, got, out)
}

// One text read, its report printed.
fn read(tags: Tags, text: &[u8], scratch: &mut [u64], out: &mut [u8]) -> Result<usize, Refusal>
    ensures { ReadCall (tag_of tags.entry) text.now (length scratch.old) out.old out.new result }
{
    let limit = scratch_layout::entry_limit(scratch.len());
    let index = scratch_layout::index_at(limit);
    let TextRead { kept, used } = report_parser::read_lines(tags, text, 0, scratch, index, limit)?;
    let spare = scratch_layout::spare_at(limit);
    print_report::print_report(tags, text, scratch, index, used, kept, spare, out)
}

// One text read, its report filtered by the used pairs of a slice of ranges and printed.
fn filter(
    tags: Tags,
    text: &[u8],
    pairs: &[[u32; 2]],
    used: usize,
    bound: Bound,
    scratch: &mut [u64],
    out: &mut [u8],
) -> Result<usize, Refusal>
    ensures { WriteCall (filter_text (tag_of tags.entry) bound text.now (ranges_in pairs.now) used (length scratch.old) (length out.old)) out.old out.new result }
{
    if !line_num_pairs::is_well_formed(pairs, used) {
        return Err(Refusal::from(Fault::MalformedRanges));
    }
    let limit = scratch_layout::entry_limit(scratch.len());
    let index = scratch_layout::index_at(limit);
    let TextRead { kept, used: rows } = report_parser::read_lines(
        tags, text, 0, scratch, index, limit,
    )?;
    let spare = scratch_layout::spare_at(limit);
    filter::print_filtered(
        tags, text, scratch, pairs, used, bound, index, rows, kept, spare, out,
    )
}

// The checked gather (`Report::merge`): given start lines and checksums must agree. The last promise is demand 3's for this call; the whole
// of it, for this call, `read_text` and their forms with a table of tags, is `Demand3Tables` in specs/Demand.antt.
pub fn gather_checked(bundle: &[u8], scratch: &mut [u64], out: &mut [u8]) -> Result<usize, Refusal>
    ensures call { GatherCall default_tag bundle.now (length scratch.old) out.old out.new result }
    ensures demand { AcceptsAndWrites default_tag bundle.now (length scratch.old) out.old out.new result }
{
    gather(Tags::defaults(), bundle, scratch, out, Mode::Checked)
}

// The same under the tags of a lent table.
pub fn gather_checked_tagged(
    tags: &[u8],
    bundle: &[u8],
    scratch: &mut [u64],
    out: &mut [u8],
) -> Result<usize, Refusal>
    ensures call { GatherTagged tags.now bundle.now (length scratch.old) out.old out.new result }
    ensures demand { (tag : Kind → Bytes) → load_tags tags.now ≡ accepted tag → AcceptsAndWrites tag bundle.now (length scratch.old) out.old out.new result }
{
    let tags = tag_table::load(tags)?;
    gather(tags, bundle, scratch, out, Mode::Checked)
}

// The lossy gather (`merge_lossy`): "the later given start line or checksum wins".
pub fn gather_lossy(bundle: &[u8], scratch: &mut [u64], out: &mut [u8]) -> Result<usize, Refusal>
    ensures { WriteCall (gatherOf default_tag Lossy bundle.now (length scratch.old) (length out.old)) out.old out.new result }
{
    gather(Tags::defaults(), bundle, scratch, out, Mode::Lossy)
}

// The same under the tags of a lent table.
pub fn gather_lossy_tagged(
    tags: &[u8],
    bundle: &[u8],
    scratch: &mut [u64],
    out: &mut [u8],
) -> Result<usize, Refusal>
    ensures { WriteCall (tagged tags.now (λ tag. gatherOf tag Lossy bundle.now (length scratch.old) (length out.old))) out.old out.new result }
{
    let tags = tag_table::load(tags)?;
    gather(tags, bundle, scratch, out, Mode::Lossy)
}

// One text read, its report printed.
pub fn read_text(text: &[u8], scratch: &mut [u64], out: &mut [u8]) -> Result<usize, Refusal>
    ensures { ReadCall default_tag text.now (length scratch.old) out.old out.new result }
{
    read(Tags::defaults(), text, scratch, out)
}

// The same under the tags of a lent table.
pub fn read_text_tagged(
    tags: &[u8],
    text: &[u8],
    scratch: &mut [u64],
    out: &mut [u8],
) -> Result<usize, Refusal>
    ensures { ReadTagged tags.now text.now (length scratch.old) out.old out.new result }
{
    let tags = tag_table::load(tags)?;
    read(tags, text, scratch, out)
}

// One text read, its report filtered by the used pairs of a slice of ranges and printed: `LineNum::apply`.
pub fn filter_text(
    text: &[u8],
    pairs: &[[u32; 2]],
    used: usize,
    scratch: &mut [u64],
    out: &mut [u8],
) -> Result<usize, Refusal>
    ensures { WriteCall (filter_text default_tag NextStart text.now (ranges_in pairs.now) used (length scratch.old) (length out.old)) out.old out.new result }
{
    filter(
        Tags::defaults(),
        text,
        pairs,
        used,
        Bound::NextStart,
        scratch,
        out,
    )
}

// The same under the tags of a lent table.
pub fn filter_text_tagged(
    tags: &[u8],
    text: &[u8],
    pairs: &[[u32; 2]],
    used: usize,
    scratch: &mut [u64],
    out: &mut [u8],
) -> Result<usize, Refusal>
    ensures { WriteCall (tagged tags.now (λ tag. filter_text tag NextStart text.now (ranges_in pairs.now) used (length scratch.old) (length out.old))) out.old out.new result }
{
    let tags = tag_table::load(tags)?;
    filter(tags, text, pairs, used, Bound::NextStart, scratch, out)
}

// The same, where a function ends one before the next greater start: functions that start on one line end together.
pub fn filter_text_distinct_starts(
    text: &[u8],
    pairs: &[[u32; 2]],
    used: usize,
    scratch: &mut [u64],
    out: &mut [u8],
) -> Result<usize, Refusal>
    ensures { WriteCall (filter_text default_tag GreaterStart text.now (ranges_in pairs.now) used (length scratch.old) (length out.old)) out.old out.new result }
{
    filter(
        Tags::defaults(),
        text,
        pairs,
        used,
        Bound::GreaterStart,
        scratch,
        out,
    )
}

// The same under the tags of a lent table.
pub fn filter_text_distinct_starts_tagged(
    tags: &[u8],
    text: &[u8],
    pairs: &[[u32; 2]],
    used: usize,
    scratch: &mut [u64],
    out: &mut [u8],
) -> Result<usize, Refusal>
    ensures { WriteCall (tagged tags.now (λ tag. filter_text tag GreaterStart text.now (ranges_in pairs.now) used (length scratch.old) (length out.old))) out.old out.new result }
{
    let tags = tag_table::load(tags)?;
    filter(tags, text, pairs, used, Bound::GreaterStart, scratch, out)
}
