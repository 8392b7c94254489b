// The C calling form: numbers and slices, a slice as a pointer and a length. include/lcov.h declares these calls for C.
#![tactic(auto)]

ghost use Rattle.std.specs.Prelude.{◌≡◌, length, true};
ghost use Rattle.model.specs.declared.Bound.TheVariants.{NextStart, GreaterStart};
ghost use Rattle.model.specs.declared.Mode.TheVariants.{Checked, Lossy};
ghost use Rattle.model.specs.Limits.{program_words};
ghost use Rattle.model.specs.Tags.{default_tag};
ghost use Rattle.model.specs.TagTable.{tagged};
ghost use Rattle.model.specs.Parts.{lent_line};
ghost use Rattle.model.specs.Calls.{WriteCall};
ghost use Rattle.model.specs.Number.{read_field};
ghost use Rattle.model.specs.Gather.{read_and_print, gather};
ghost use Rattle.model.specs.Filter.{filter_text};
ghost use Rattle.model_totals.specs.Totals.{totals};
ghost use Rattle.model_bounds.specs.Bounds.{hit_bounds};
ghost use Rattle.text_choice.specs.Revisions.{gather_revisions};
ghost use Rattle.text_choice.specs.Windows.{gather_windows};
ghost use Rattle.text_choice.specs.Quotas.{joint_of, marks_after, gather_quotas};
ghost use Rattle.model.specs.Path.{components, compare_paths};
ghost use Rattle.lcov_c_words.specs.Words.{record_words, counted_words, held_words, bounds_words, with_prefix};
ghost use Rattle.model.specs.Ranges.{half_open, insert_call, query_call};
ghost use Rattle.line_num_pairs.specs.Pairs.{pair, ranges_in};
ghost use Rattle.lcov_c.specs.Exports.{Stored, printed_line, AnswerStored, RangeInserted, range_words, order_number};
ghost use Rattle.tag_table.specs.Tags.{tag_of};

use model::Refusal;
use std::cmp::Ordering;
use tag_table::Tags;

const SCRATCH_WORDS: usize = lcov::PROGRAM_WORDS;

// Reads a line. Answers 0 and the record's words, or a refusal's number and its values.
#[unsafe(no_mangle)]
pub extern "C" fn lcov_read_line(line: &[u8], answer: &mut [u64]) -> u32
    ensures { Stored record_words (lent_line default_tag line.now) answer.old answer.new result }
{
    let got = lcov::read_line(line);
    lcov_c_words::store_answer(got, answer)
}

// The same under the tags of a lent table.
#[unsafe(no_mangle)]
pub extern "C" fn lcov_read_line_tagged(tags: &[u8], line: &[u8], answer: &mut [u64]) -> u32
    ensures { Stored record_words (tagged tags.now (λ tag. lent_line tag line.now)) answer.old answer.new result }
{
    let got = lcov::read_line_tagged(tags, line);
    lcov_c_words::store_answer(got, answer)
}

// Reads a line and prints its record, with byte 10 after it.
#[inline]
fn print_read(tags: Tags, line: &[u8], out: &mut [u8]) -> Result<usize, Refusal>
    ensures { WriteCall (printed_line (tag_of tags.entry) line.now (length out.old)) out.old out.new result }
{
    let made = record_parse::read_line(tags, line)?;
    record_display::print_line(tags, line, made, out)
}

// The same under the tags of a lent table.
fn print_read_tagged(tags: &[u8], line: &[u8], out: &mut [u8]) -> Result<usize, Refusal>
    ensures { WriteCall (tagged tags.now (λ tag. printed_line tag line.now (length out.old))) out.old out.new result }
{
    let tags = tag_table::load(tags)?;
    print_read(tags, line, out)
}

// Reads a line and prints its record, with byte 10 after it, to out. Answers 0 and the written length, or a refusal's number and its
// values; out stays then.
#[unsafe(no_mangle)]
pub extern "C" fn lcov_print_line(line: &[u8], out: &mut [u8], answer: &mut [u64]) -> u32
    ensures { AnswerStored (printed_line default_tag line.now (length out.old)) answer.old answer.new out.old out.new result }
{
    let got = print_read(Tags::defaults(), line, out);
    lcov_c_words::store_answer(got, answer)
}

// The same under the tags of a lent table.
#[unsafe(no_mangle)]
pub extern "C" fn lcov_print_line_tagged(
    tags: &[u8],
    line: &[u8],
    out: &mut [u8],
    answer: &mut [u64],
) -> u32
    ensures { AnswerStored (tagged tags.now (λ tag. printed_line tag line.now (length out.old))) answer.old answer.new out.old out.new result }
{
    let got = print_read_tagged(tags, line, out);
    lcov_c_words::store_answer(got, answer)
}

// Reads one number field, a number up to max. Answers 0, its value and how many digits were read, or a refusal's number.
#[unsafe(no_mangle)]
pub extern "C" fn lcov_read_number(field: &[u8], max: u64, answer: &mut [u64]) -> u32
    ensures { Stored counted_words (read_field max field.now) answer.old answer.new result }
{
    let got = record_parse::read_number(field, max);
    lcov_c_words::store_answer(got, answer)
}

// Gathers a bundle, checked, in lent scratch.
#[unsafe(no_mangle)]
pub extern "C" fn lcov_gather_with(
    bundle: &[u8],
    scratch: &mut [u64],
    out: &mut [u8],
    answer: &mut [u64],
) -> u32
    ensures { AnswerStored (gather default_tag Checked bundle.now (length scratch.old) (length out.old)) answer.old answer.new out.old out.new result }
{
    let got = lcov::gather_checked(bundle, scratch, out);
    lcov_c_words::store_answer(got, answer)
}

// The same under the tags of a lent table.
#[unsafe(no_mangle)]
pub extern "C" fn lcov_gather_tagged(
    tags: &[u8],
    bundle: &[u8],
    scratch: &mut [u64],
    out: &mut [u8],
    answer: &mut [u64],
) -> u32
    ensures { AnswerStored (tagged tags.now (λ tag. gather tag Checked bundle.now (length scratch.old) (length out.old))) answer.old answer.new out.old out.new result }
{
    let got = lcov::gather_checked_tagged(tags, bundle, scratch, out);
    lcov_c_words::store_answer(got, answer)
}

// The lossy gather.
#[unsafe(no_mangle)]
pub extern "C" fn lcov_gather_lossy(
    bundle: &[u8],
    scratch: &mut [u64],
    out: &mut [u8],
    answer: &mut [u64],
) -> u32
    ensures { AnswerStored (gather default_tag Lossy bundle.now (length scratch.old) (length out.old)) answer.old answer.new out.old out.new result }
{
    let got = lcov::gather_lossy(bundle, scratch, out);
    lcov_c_words::store_answer(got, answer)
}

// The same under the tags of a lent table.
#[unsafe(no_mangle)]
pub extern "C" fn lcov_gather_lossy_tagged(
    tags: &[u8],
    bundle: &[u8],
    scratch: &mut [u64],
    out: &mut [u8],
    answer: &mut [u64],
) -> u32
    ensures { AnswerStored (tagged tags.now (λ tag. gather tag Lossy bundle.now (length scratch.old) (length out.old))) answer.old answer.new out.old out.new result }
{
    let got = lcov::gather_lossy_tagged(tags, bundle, scratch, out);
    lcov_c_words::store_answer(got, answer)
}

// Gathers a bundle with revisions, checked: of each run the text with the highest revision.
#[unsafe(no_mangle)]
pub extern "C" fn lcov_gather_revisions(
    bundle: &[u8],
    scratch: &mut [u64],
    out: &mut [u8],
    answer: &mut [u64],
) -> u32
    ensures { AnswerStored (gather_revisions default_tag bundle.now (length scratch.old) (length out.old)) answer.old answer.new out.old out.new result }
{
    let got = lcov::gather_revisions(bundle, scratch, out);
    lcov_c_words::store_answer(got, answer)
}

// The same under the tags of a lent table.
#[unsafe(no_mangle)]
pub extern "C" fn lcov_gather_revisions_tagged(
    tags: &[u8],
    bundle: &[u8],
    scratch: &mut [u64],
    out: &mut [u8],
    answer: &mut [u64],
) -> u32
    ensures { AnswerStored (tagged tags.now (λ tag. gather_revisions tag bundle.now (length scratch.old) (length out.old))) answer.old answer.new out.old out.new result }
{
    let got = lcov::gather_revisions_tagged(tags, bundle, scratch, out);
    lcov_c_words::store_answer(got, answer)
}

// For each text of a bundle a line `hit/found` over the lines of the checked gather of that text and the up to width − 1 before it.
#[unsafe(no_mangle)]
pub extern "C" fn lcov_windows(
    bundle: &[u8],
    width: u32,
    scratch: &mut [u64],
    out: &mut [u8],
    answer: &mut [u64],
) -> u32
    ensures { AnswerStored (gather_windows default_tag bundle.now width (length scratch.old) (length out.old)) answer.old answer.new out.old out.new result }
{
    let got = lcov::windows(bundle, width, scratch, out);
    lcov_c_words::store_answer(got, answer)
}

// The same under the tags of a lent table.
#[unsafe(no_mangle)]
pub extern "C" fn lcov_windows_tagged(
    tags: &[u8],
    bundle: &[u8],
    width: u32,
    scratch: &mut [u64],
    out: &mut [u8],
    answer: &mut [u64],
) -> u32
    ensures { AnswerStored (tagged tags.now (λ tag. gather_windows tag bundle.now width (length scratch.old) (length out.old))) answer.old answer.new out.old out.new result }
{
    let got = lcov::windows_tagged(tags, bundle, width, scratch, out);
    lcov_c_words::store_answer(got, answer)
}

// Gathers the labs whose own gather is accepted and has no more entries than their quota, and marks all labs.
#[unsafe(no_mangle)]
pub extern "C" fn lcov_gather_quotas(
    bundle: &[u8],
    labs: &[u8],
    quotas: &[u32],
    scratch: &mut [u64],
    out: &mut [u8],
    marks: &mut [u64],
    answer: &mut [u64],
) -> u32
    ensures call { AnswerStored (joint_of (gather_quotas default_tag bundle.now labs.now quotas.now (length scratch.old) (length out.old))) answer.old answer.new out.old out.new result }
    ensures marked { marks.new ≡ marks_after (gather_quotas default_tag bundle.now labs.now quotas.now (length scratch.old) (length out.old)) marks.old }
{
    let got = lcov::gather_quotas(bundle, labs, quotas, scratch, out, marks);
    lcov_c_words::store_answer(got, answer)
}

// The same under the tags of a lent table.
#[unsafe(no_mangle)]
pub extern "C" fn lcov_gather_quotas_tagged(
    tags: &[u8],
    bundle: &[u8],
    labs: &[u8],
    quotas: &[u32],
    scratch: &mut [u64],
    out: &mut [u8],
    marks: &mut [u64],
    answer: &mut [u64],
) -> u32
    ensures call { AnswerStored (joint_of (tagged tags.now (λ tag. gather_quotas tag bundle.now labs.now quotas.now (length scratch.old) (length out.old)))) answer.old answer.new out.old out.new result }
    ensures marked { marks.new ≡ marks_after (tagged tags.now (λ tag. gather_quotas tag bundle.now labs.now quotas.now (length scratch.old) (length out.old))) marks.old }
{
    let got = lcov::gather_quotas_tagged(tags, bundle, labs, quotas, scratch, out, marks);
    lcov_c_words::store_answer(got, answer)
}

// Bounds of the hit numbers of a run whose counts are known by two texts. Answers 0 and six numbers, or a refusal's number.
#[unsafe(no_mangle)]
pub extern "C" fn lcov_hit_bounds(
    least: &[u8],
    greatest: &[u8],
    scratch: &mut [u64],
    answer: &mut [u64],
) -> u32
    ensures { Stored bounds_words (hit_bounds default_tag least.now greatest.now (length scratch.old)) answer.old answer.new result }
{
    let got = lcov::hit_bounds(least, greatest, scratch);
    lcov_c_words::store_answer(got, answer)
}

// The same under the tags of a lent table.
#[unsafe(no_mangle)]
pub extern "C" fn lcov_hit_bounds_tagged(
    tags: &[u8],
    least: &[u8],
    greatest: &[u8],
    scratch: &mut [u64],
    answer: &mut [u64],
) -> u32
    ensures { Stored bounds_words (tagged tags.now (λ tag. hit_bounds tag least.now greatest.now (length scratch.old))) answer.old answer.new result }
{
    let got = lcov::hit_bounds_tagged(tags, least, greatest, scratch);
    lcov_c_words::store_answer(got, answer)
}

// Gathers a bundle, checked, and writes the page of totals.
#[unsafe(no_mangle)]
pub extern "C" fn lcov_totals(
    bundle: &[u8],
    scratch: &mut [u64],
    out: &mut [u8],
    answer: &mut [u64],
) -> u32
    ensures { AnswerStored (totals default_tag bundle.now (length scratch.old) (length out.old)) answer.old answer.new out.old out.new result }
{
    let got = lcov::totals(bundle, scratch, out);
    lcov_c_words::store_answer(got, answer)
}

// The same under the tags of a lent table.
#[unsafe(no_mangle)]
pub extern "C" fn lcov_totals_tagged(
    tags: &[u8],
    bundle: &[u8],
    scratch: &mut [u64],
    out: &mut [u8],
    answer: &mut [u64],
) -> u32
    ensures { AnswerStored (tagged tags.now (λ tag. totals tag bundle.now (length scratch.old) (length out.old))) answer.old answer.new out.old out.new result }
{
    let got = lcov::totals_tagged(tags, bundle, scratch, out);
    lcov_c_words::store_answer(got, answer)
}

// Reads one text and prints its report.
#[unsafe(no_mangle)]
pub extern "C" fn lcov_read_text(
    text: &[u8],
    scratch: &mut [u64],
    out: &mut [u8],
    answer: &mut [u64],
) -> u32
    ensures { AnswerStored (read_and_print default_tag text.now (length scratch.old) (length out.old)) answer.old answer.new out.old out.new result }
{
    let got = lcov::read_text(text, scratch, out);
    lcov_c_words::store_answer(got, answer)
}

// The same under the tags of a lent table.
#[unsafe(no_mangle)]
pub extern "C" fn lcov_read_text_tagged(
    tags: &[u8],
    text: &[u8],
    scratch: &mut [u64],
    out: &mut [u8],
    answer: &mut [u64],
) -> u32
    ensures { AnswerStored (tagged tags.now (λ tag. read_and_print tag text.now (length scratch.old) (length out.old))) answer.old answer.new out.old out.new result }
{
    let got = lcov::read_text_tagged(tags, text, scratch, out);
    lcov_c_words::store_answer(got, answer)
}

// Gathers a bundle, checked, with 8,192 words of scratch inside: 256 entries.
#[unsafe(no_mangle)]
pub extern "C" fn lcov_gather(bundle: &[u8], out: &mut [u8], answer: &mut [u64]) -> u32
    ensures { AnswerStored (gather default_tag Checked bundle.now program_words (length out.old)) answer.old answer.new out.old out.new result }
{
    let mut scratch = [0u64; SCRATCH_WORDS];
    let got = lcov::gather_checked(bundle, &mut scratch, out);
    lcov_c_words::store_answer(got, answer)
}

// Puts a range among the first `used` pairs of a lent slice. Answers 0 and the new number of pairs, or a refusal's number and its values; the
// pairs stay then.
#[unsafe(no_mangle)]
pub extern "C" fn lcov_insert_range(
    pairs: &mut [[u32; 2]],
    used: usize,
    start: u32,
    end: u32,
    answer: &mut [u64],
) -> u32
    ensures { RangeInserted (insert_call (ranges_in pairs.old) used (pair start end)) answer.old answer.new (ranges_in pairs.old) (ranges_in pairs.new) result }
{
    let got = line_num_pairs::insert(pairs, used, start, end);
    lcov_c_words::store_answer(got, answer)
}

// Asks whether one of the first `used` pairs of a lent slice shares a line with start to end. Answers 0 and 1 for yes, 0 for no, or a refusal.
#[unsafe(no_mangle)]
pub extern "C" fn lcov_query_range(
    pairs: &[[u32; 2]],
    used: usize,
    start: u32,
    end: u32,
    answer: &mut [u64],
) -> u32
    ensures { Stored held_words (query_call (ranges_in pairs.now) used start end) answer.old answer.new result }
{
    let got = line_num_pairs::query(pairs, used, start, end);
    lcov_c_words::store_answer(got, answer)
}

// The range that the half-open a..b is.
#[unsafe(no_mangle)]
pub extern "C" fn lcov_half_open(a: u32, b: u32, answer: &mut [u64])
    ensures { answer.new ≡ with_prefix (range_words (half_open a b)) answer.old }
{
    let range = line_num_pairs::half_open(a, b);
    lcov_c_words::put_words(
        [range.start as u64, range.end as u64, 0, 0, 0, 0, 0, 0],
        answer,
    );
}

// Reads one text and prints what of its report the first `used` pairs of a lent slice hold.
#[unsafe(no_mangle)]
pub extern "C" fn lcov_filter(
    text: &[u8],
    pairs: &[[u32; 2]],
    used: usize,
    scratch: &mut [u64],
    out: &mut [u8],
    answer: &mut [u64],
) -> u32
    ensures { AnswerStored (filter_text default_tag NextStart text.now (ranges_in pairs.now) used (length scratch.old) (length out.old)) answer.old answer.new out.old out.new result }
{
    let got = lcov::filter_text(text, pairs, used, scratch, out);
    lcov_c_words::store_answer(got, answer)
}

// The same under the tags of a lent table.
#[unsafe(no_mangle)]
pub extern "C" fn lcov_filter_tagged(
    tags: &[u8],
    text: &[u8],
    pairs: &[[u32; 2]],
    used: usize,
    scratch: &mut [u64],
    out: &mut [u8],
    answer: &mut [u64],
) -> u32
    ensures { AnswerStored (tagged tags.now (λ tag. filter_text tag NextStart text.now (ranges_in pairs.now) used (length scratch.old) (length out.old))) answer.old answer.new out.old out.new result }
{
    let got = lcov::filter_text_tagged(tags, text, pairs, used, scratch, out);
    lcov_c_words::store_answer(got, answer)
}

// The same as `lcov_filter`, where a function ends one before the next greater start.
#[unsafe(no_mangle)]
pub extern "C" fn lcov_filter_distinct_starts(
    text: &[u8],
    pairs: &[[u32; 2]],
    used: usize,
    scratch: &mut [u64],
    out: &mut [u8],
    answer: &mut [u64],
) -> u32
    ensures { AnswerStored (filter_text default_tag GreaterStart text.now (ranges_in pairs.now) used (length scratch.old) (length out.old)) answer.old answer.new out.old out.new result }
{
    let got = lcov::filter_text_distinct_starts(text, pairs, used, scratch, out);
    lcov_c_words::store_answer(got, answer)
}

// The same under the tags of a lent table.
#[unsafe(no_mangle)]
pub extern "C" fn lcov_filter_distinct_starts_tagged(
    tags: &[u8],
    text: &[u8],
    pairs: &[[u32; 2]],
    used: usize,
    scratch: &mut [u64],
    out: &mut [u8],
    answer: &mut [u64],
) -> u32
    ensures { AnswerStored (tagged tags.now (λ tag. filter_text tag GreaterStart text.now (ranges_in pairs.now) used (length scratch.old) (length out.old))) answer.old answer.new out.old out.new result }
{
    let got = lcov::filter_text_distinct_starts_tagged(tags, text, pairs, used, scratch, out);
    lcov_c_words::store_answer(got, answer)
}

// Compares two paths by components: 0 less, 1 equal, 2 greater.
#[unsafe(no_mangle)]
pub extern "C" fn lcov_compare_paths(a: &[u8], b: &[u8]) -> u32
    ensures { result ≡ order_number (compare_paths (components a.now) (components b.now)) }
{
    match compare::compare_paths(a, b) {
        Ordering::Less => 0,
        Ordering::Equal => 1,
        Ordering::Greater => 2,
    }
}
