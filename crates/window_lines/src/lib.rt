// Coverage over the latest texts (SPEC 7.6): for each text the texts of its window are gathered, and the lines of their joined report that are
// hit and found are counted and printed as a line. The report is not printed.
#![tactic(auto)]

ghost use Rattle.std.specs.Prelude.{◌≡◌, true, ◌+◌, ◌*◌, ◌≤◌, ◌<◌, length};
ghost use Rattle.model.specs.Limits.{max_texts, max_width};
ghost use Rattle.model.specs.Output.{written};
ghost use Rattle.model.specs.Calls.{WriteCall};
ghost use Rattle.model.specs.Bundle.{text_count, well_formed};
ghost use Rattle.model.specs.Gather.{entry_limit};
ghost use Rattle.bundle.specs.Marks.{MarkedAs};
ghost use Rattle.format.specs.Put.{over};
ghost use Rattle.text_choice.specs.Windows.{is_width, is_in_window, window_texts, window_line, gather_windows};
ghost use Rattle.window_lines.specs.Lines.{max_line, ratio_line, line_of, LinesPut};
ghost use Rattle.tag_table.specs.Tags.{tag_of};

use model::{Fault, Mode, Refusal};
use model_totals::Ratio;
use tag_table::Tags;

const MAX_TEXTS: usize = bundle::MAX_TEXTS;

// "It refuses w = 0 or w above 16": `max_width` in model/specs/Limits.antt.
const MAX_WIDTH: usize = 16;

// Two numbers of at most 20 digits, with a byte behind each: `max_line`.
const MAX_LINE: usize = 42;

// The lines of 64 texts.
const MAX_LINES: usize = MAX_TEXTS * MAX_LINE;

fn is_width(width: usize) -> bool
    ensures { result ≡ is_width width }
{
    (1..=MAX_WIDTH).contains(&width)
}

// Text j is the i-th, or one of the up to width − 1 before it.
fn is_in_window(width: usize, i: usize, j: usize) -> bool
    requires { (width ≤ max_width) × (j < max_texts) }
    ensures { result ≡ is_in_window width i j }
{
    j <= i && i < j + width
}

// A byte for each of n texts: 1 where it is in the window of the i-th, otherwise 0.
fn mark_window(marks: &mut [u8], n: usize, width: usize, i: usize)
    requires { (width ≤ max_width) × (n ≤ max_texts) × (n ≤ length marks.old) }
    ensures { MarkedAs (is_in_window width i) n marks.new }
{
    for j in 0..n {
        marks[j] = is_in_window(width, i, j) as u8;
    }
}

// The lines that are hit and found in a window: "the checked gather of that text and the up to w − 1 before it".
fn count_window(
    tags: Tags,
    bundle: &[u8],
    width: usize,
    i: usize,
    scratch: &mut [u64],
) -> Result<Ratio, Refusal>
    requires bundle_value { (well_formed bundle.now ≡ true) × (width ≤ max_width) }
    ensures { line_of result ≡ window_line (tag_of tags.entry) (entry_limit (length scratch.old)) (window_texts width bundle.now i) }
{
    let n = bundle::text_count(bundle);
    let mut marks = [0u8; MAX_TEXTS];
    mark_window(&mut marks, n, width, i);
    let body = bundle::body_at(bundle);
    let entries = joined_table::gather_marked(tags, bundle, body, &marks, scratch, Mode::Checked)?;
    let limit = scratch_layout::entry_limit(scratch.len());
    let index = scratch_layout::index_at(limit);
    let totals = print_totals::count_totals(scratch, index, entries);
    Ok(totals.lines)
}

// The line of a window at the front of out: hit, '/', found and byte 10.
fn put_line(lines: Ratio, out: &mut [u8]) -> usize
    requires { max_line ≤ length out.old }
    ensures { (result ≡ length (ratio_line lines)) × (out.new ≡ over (ratio_line lines) out.old) }
{
    let mut line = [0u8; MAX_LINE + 1];
    let n = format::put_pair(b'\n', lines.hit, b'/', lines.found, &mut line);
    line[n] = b'\n';
    let end = n + 1;
    format::put_bytes(&line[1..end], out)
}

// The lines of all windows at the front of out, or the refusal of the first window that is refused.
fn put_lines(
    tags: Tags,
    bundle: &[u8],
    width: usize,
    scratch: &mut [u64],
    out: &mut [u8],
) -> Result<usize, Refusal>
    requires bundle_value { (well_formed bundle.now ≡ true) × (is_width width ≡ true) × (max_texts * max_line ≤ length out.old) }
    ensures { LinesPut (gather_windows (tag_of tags.entry) bundle.now width (length scratch.old)) out.new result }
{
    let n = bundle::text_count(bundle);
    let mut at = 0;
    for i in 0..n {
        let lines = count_window(tags, bundle, width, i, scratch)?;
        at += put_line(lines, &mut out[at..]);
    }
    Ok(at)
}

// Bytes written to the output; one that is too short stays.
fn write_bytes(bytes: &[u8], out: &mut [u8]) -> Result<usize, Refusal>
    ensures { WriteCall (written (length out.old) bytes.now) out.old out.new result }
{
    if out.len() < bytes.len() {
        return print_report::too_short(bytes.len());
    }
    let len = format::put_bytes(bytes, out);
    Ok(len)
}

// The lines of all windows of a width that is 1 to 16, of a bundle that is well formed.
fn write_lines(
    tags: Tags,
    bundle: &[u8],
    width: usize,
    scratch: &mut [u64],
    out: &mut [u8],
) -> Result<usize, Refusal>
    requires bundle_value { (well_formed bundle.now ≡ true) × (is_width width ≡ true) }
    ensures { WriteCall (gather_windows (tag_of tags.entry) bundle.now width (length scratch.old) (length out.old)) out.old out.new result }
{
    let mut lines = [0u8; MAX_LINES];
    let len = put_lines(tags, bundle, width, scratch, &mut lines)?;
    write_bytes(&lines[..len], out)
}

// The lines of all windows of a bundle. 24 comes right after 16.
pub fn print_windows(
    tags: Tags,
    bundle: &[u8],
    width: usize,
    scratch: &mut [u64],
    out: &mut [u8],
) -> Result<usize, Refusal>
    ensures { WriteCall (gather_windows (tag_of tags.entry) bundle.now width (length scratch.old) (length out.old)) out.old out.new result }
{
    if bundle::is_well_formed(bundle) {
        if is_width(width) {
            return write_lines(tags, bundle, width, scratch, out);
        }
        return Err(Refusal::from(Fault::WidthOutside));
    }
    Err(Refusal::from(Fault::MalformedBundle))
}
