// A record printed as a line: `Display for Record`, SPEC 2.6's "The line printer tries 17, then 14".
#![tactic(auto)]

ghost use Rattle.std.specs.Prelude.{◌≡◌, [], length, true};
ghost use Rattle.model.specs.Calls.{WriteCall};
ghost use Rattle.model.specs.Parts.{print_line};
ghost use Rattle.record_display.specs.Fields.{needed_at};
ghost use Rattle.record_display.specs.Lines.{line_in, counted};
ghost use Rattle.tag_table.specs.Tags.{tag_of};

mod fields;
mod put;

use model::{Fault, Part, Record, Refusal};
use tag_table::Tags;

fn refusal(fault: Fault, needed: u64) -> Refusal
    ensures { result ≡ needed_at fault needed }
{
    Refusal {
        fault,
        text: 0,
        line: 0,
        field: 0,
        needed,
    }
}

// The length of a record's line, with byte 10 after it. A record with a part outside text has no line, and 0 is its length.
pub fn line_len(tags: Tags, text: &[u8], record: Record) -> usize
    ensures { result ≡ length (line_in (tag_of tags.entry) text.now «record») }
{
    let fields = fields::fields_of(record);
    let last = fields.last;
    if fields::is_inside(last, text.len()) {
        return put::line_len(tags, fields);
    }
    0
}

// Prints a record, whose text parts lie in text, with byte 10 after it.
pub fn print_line(tags: Tags, text: &[u8], record: Record, out: &mut [u8]) -> Result<usize, Refusal>
    ensures { WriteCall (print_line (tag_of tags.entry) text.now «record» (length out.old)) out.old out.new result }
{
    let fields = fields::fields_of(record);
    let last = fields.last;
    if fields::is_inside(last, text.len()) {
        if put::fits(tags, fields, out.len()) {
            let n = put::put_line(tags, fields, text, out);
            return Ok(n);
        }
        let needed = put::line_len(tags, fields);
        return Err(refusal(Fault::OutputTooShort, needed as u64));
    }
    Err(refusal(Fault::PartOutside, 0))
}

// Prints a line's record with no checksum, as `print_line` does, and makes no record of it where the output surely holds it: most lines of a
// report are such.
pub fn print_line_data(tags: Tags, line: u32, count: u64, out: &mut [u8]) -> Result<usize, Refusal>
    ensures { WriteCall (print_line (tag_of tags.entry) [] (counted line count) (length out.old)) out.old out.new result }
{
    if put::MAX_HEAD <= out.len() {
        let n = put::put_line_data(tags, line as u64, count, out);
        return Ok(n);
    }
    let record = Record::LineData {
        line,
        count,
        checksum: None,
    };
    print_line(tags, b"", record, out)
}
