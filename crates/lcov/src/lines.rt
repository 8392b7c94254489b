// The calls for one line: read, measured, and printed. Each that reads or prints has a form with a lent table of tags.
ghost use Rattle.std.specs.Prelude.{◌≡◌, [], length};
ghost use Rattle.model.specs.Calls.{ValueCall, WriteCall};
ghost use Rattle.model.specs.Parts.{lent_record, lent_line, print_line};
ghost use Rattle.model.specs.Tags.{default_tag};
ghost use Rattle.model.specs.TagTable.{tagged};
ghost use Rattle.record_display.specs.Lines.{line_in, counted};

use model::{Record, Refusal};
use tag_table::Tags;

// Reads a lone line, which is line 1.
pub fn read_line(line: &[u8]) -> Result<Record, Refusal>
    ensures { ValueCall (lent_line default_tag line.now) result }
{
    record_parse::read_line(Tags::defaults(), line)
}

// The same under the tags of a lent table.
pub fn read_line_tagged(tags: &[u8], line: &[u8]) -> Result<Record, Refusal>
    ensures { ValueCall (tagged tags.now (λ tag. lent_line tag line.now)) result }
{
    let tags = tag_table::load(tags)?;
    record_parse::read_line(tags, line)
}

// Reads a line; its refusal has no line number.
pub fn read_record(line: &[u8]) -> Result<Record, Refusal>
    ensures { ValueCall (lent_record default_tag line.now) result }
{
    record_parse::read_record(Tags::defaults(), line)
}

// The same under the tags of a lent table.
pub fn read_record_tagged(tags: &[u8], line: &[u8]) -> Result<Record, Refusal>
    ensures { ValueCall (tagged tags.now (λ tag. lent_record tag line.now)) result }
{
    let tags = tag_table::load(tags)?;
    record_parse::read_record(tags, line)
}

// The length of a record's line, with byte 10 after it. A record with a part outside text has no line, and 0 is its length.
pub fn line_len(text: &[u8], record: Record) -> usize
    ensures { result ≡ length (line_in default_tag text.now «record») }
{
    record_display::line_len(Tags::defaults(), text, record)
}

// Prints a record, whose text parts lie in text, with byte 10 after it.
pub fn print_line(text: &[u8], record: Record, out: &mut [u8]) -> Result<usize, Refusal>
    ensures { WriteCall (print_line default_tag text.now «record» (length out.old)) out.old out.new result }
{
    record_display::print_line(Tags::defaults(), text, record, out)
}

// The same under the tags of a lent table.
pub fn print_line_tagged(
    tags: &[u8],
    text: &[u8],
    record: Record,
    out: &mut [u8],
) -> Result<usize, Refusal>
    ensures { WriteCall (tagged tags.now (λ tag. print_line tag text.now «record» (length out.old))) out.old out.new result }
{
    let tags = tag_table::load(tags)?;
    record_display::print_line(tags, text, record, out)
}

// Prints a line's record with no checksum, as `print_line` does.
pub fn print_line_data(line: u32, count: u64, out: &mut [u8]) -> Result<usize, Refusal>
    ensures { WriteCall (print_line default_tag [] (counted line count) (length out.old)) out.old out.new result }
{
    record_display::print_line_data(Tags::defaults(), line, count, out)
}

// The same under the tags of a lent table.
pub fn print_line_data_tagged(
    tags: &[u8],
    line: u32,
    count: u64,
    out: &mut [u8],
) -> Result<usize, Refusal>
    ensures { WriteCall (tagged tags.now (λ tag. print_line tag [] (counted line count) (length out.old))) out.old out.new result }
{
    let tags = tag_table::load(tags)?;
    record_display::print_line_data(tags, line, count, out)
}
