// A record's line measured and written, field by field, each into the rest of the output.
ghost use Rattle.std.specs.Prelude.{◌≡◌, ◌+◌, ◌≤◌, ◌<◌, [], ◌∷◌, true, length};
ghost use Rattle.model.specs.declared.Kind.TheVariants as Kd;
ghost use Rattle.model.specs.Number.{decimal};
ghost use Rattle.format.specs.Put.{over};
ghost use Rattle.record_display.specs.declared.fields.Last.TheVariants as L;
ghost use Rattle.record_display.specs.Fields.{separated, number_texts, last_len, last_field, inside, sep_after, head_of, max_head, fields_text, line_text, Fitting};
ghost use Rattle.tag_table.specs.Tags.{tag_of};

use crate::fields;
use crate::fields::{Fields, Last};
use model::Kind;
use tag_table::Tags;

// Writes a field at the front of out: the byte sep, then the bytes of s.
fn put_text(sep: u8, s: &[u8], out: &mut [u8]) -> usize
    requires { 1 + length s.now ≤ length out.old }
    ensures { (result ≡ 1 + length s.now) × (out.new ≡ over (sep ∷ s.now) out.old) }
{
    out[0] = sep;
    let n = format::put_bytes(s, &mut out[1..]);
    1 + n
}

// The length of the first count numbers as fields.
fn numbers_len(numbers: [u64; 4], count: usize) -> usize
    requires { count ≤ 4 }
    ensures { (result ≡ length (separated 58 (number_texts numbers count))) × (result ≤ 84) }
{
    let mut n = 0;
    for i in 0..count {
        n = n + 1 + format::decimal_len(numbers[i]);
    }
    n
}

// Writes the first count numbers as fields at the front of out.
#[tactic(auto, using(crate::proofs::FieldLaws::putting_start, crate::proofs::FieldLaws::putting_at, crate::proofs::FieldLaws::putting_more))]
fn put_numbers(numbers: [u64; 4], count: usize, out: &mut [u8]) -> usize
    requires { (count ≤ 4) × (length (separated 58 (number_texts numbers count)) ≤ length out.old) }
    ensures { (result ≡ length (separated 58 (number_texts numbers count))) × (out.new ≡ over (separated 58 (number_texts numbers count)) out.old) }
{
    let mut at = 0;
    let mut sep = b':';
    for i in 0..count {
        let n = format::put_number(sep, numbers[i], &mut out[at..]);
        at = at + n;
        sep = b',';
    }
    at
}

// Writes the last field at the front of out.
fn put_last(sep: u8, last: Last, text: &[u8], out: &mut [u8]) -> usize
    requires { (inside (length text.now) last ≡ true) × (last_len last ≤ length out.old) }
    ensures { (result ≡ last_len last) × (out.new ≡ over (separated sep (last_field text.now last)) out.old) }
{
    match last {
        Last::Nothing => 0,
        Last::Dash => put_text(sep, b"-", out),
        Last::Text(part) => {
            let start = part.start;
            let end = start + part.len;
            put_text(sep, &text[start..end], out)
        }
    }
}

fn sep_after(count: usize) -> u8
    ensures { result ≡ sep_after count }
{
    if count == 0 {
        return b':';
    }
    b','
}

// The length of the tag and the numbers.
fn head_len(tags: Tags, kind: Kind, numbers: [u64; 4], count: usize) -> usize
    requires count_bound { count ≤ 4 }
    ensures { (result ≡ length (head_of (tag_of tags.entry) kind numbers count)) × (result ≤ 100) }
{
    tag_table::tag_len(tags, kind) + numbers_len(numbers, count)
}

// The length of a record's line.
pub fn line_len(tags: Tags, fields: Fields) -> usize
    requires count_bound { (fields.count ≤ 4) × (last_len fields.last ≤ 9223372036854775808) }
    ensures { (result ≡ length (head_of (tag_of tags.entry) fields.kind fields.numbers fields.count) + last_len fields.last + 1) × (result ≤ max_head + last_len fields.last) }
{
    let kind = fields.kind;
    let numbers = fields.numbers;
    let last = fields.last;
    head_len(tags, kind, numbers, fields.count) + fields::last_len(last) + 1
}

// The tag, four numbers and byte 10 are at most so many bytes: `max_head` in specs/Fields.antt.
pub const MAX_HEAD: usize = 101;

// Whether a record's line is at most room bytes long. Where any tag and numbers fit, they are not measured.
pub fn fits(tags: Tags, fields: Fields, room: usize) -> bool
    requires count_bound { (fields.count ≤ 4) × (last_len fields.last ≤ 9223372036854775808) }
    ensures { Fitting (tag_of tags.entry) fields room result }
{
    let last = fields.last;
    if MAX_HEAD + fields::last_len(last) <= room {
        return true;
    }
    line_len(tags, fields) <= room
}

// Writes the tag and the numbers at the front of out.
fn put_head(tags: Tags, kind: Kind, numbers: [u64; 4], count: usize, out: &mut [u8]) -> usize
    requires count_bound { (count ≤ 4) × (length (head_of (tag_of tags) kind numbers count) ≤ length out.old) }
    ensures { (result ≡ length (head_of (tag_of tags.entry) kind numbers count)) × (out.new ≡ over (head_of (tag_of tags.entry) kind numbers count) out.old) }
{
    let at = tag_table::put_tag(tags, kind, out);
    let n = put_numbers(numbers, count, &mut out[at..]);
    at + n
}

// Writes all fields of a record at the front of out.
fn put_fields(
    tags: Tags,
    kind: Kind,
    numbers: [u64; 4],
    count: usize,
    last: Last,
    text: &[u8],
    out: &mut [u8],
) -> usize
    requires count_bound { (count ≤ 4) × (inside (length text.now) last ≡ true) }
    requires last_in_bounds { length (fields_text (tag_of tags) text.now kind numbers count last) ≤ length out.old }
    ensures value { result ≡ length (fields_text (tag_of tags.entry) text.now kind numbers count last) }
    ensures out_after { out.new ≡ over (fields_text (tag_of tags.entry) text.now kind numbers count last) out.old }
{
    let at = put_head(tags, kind, numbers, count, out);
    let sep = sep_after(count);
    let n = put_last(sep, last, text, &mut out[at..]);
    at + n
}

// Writes the line of a record at the front of out.
pub fn put_line(tags: Tags, fields: Fields, text: &[u8], out: &mut [u8]) -> usize
    requires count_bound { (fields.count ≤ 4) × (inside (length text.now) fields.last ≡ true) }
    requires last_in_bounds { length (line_text (tag_of tags) text.now fields.kind fields.numbers fields.count fields.last) ≤ length out.old }
    ensures value { result ≡ length (line_text (tag_of tags.entry) text.now fields.kind fields.numbers fields.count fields.last) }
    ensures out_after { out.new ≡ over (line_text (tag_of tags.entry) text.now fields.kind fields.numbers fields.count fields.last) out.old }
{
    let kind = fields.kind;
    let numbers = fields.numbers;
    let last = fields.last;
    let end = put_fields(tags, kind, numbers, fields.count, last, text, out);
    out[end] = 10;
    end + 1
}

// Writes the line of a DA with no checksum at the front of out.
pub fn put_line_data(tags: Tags, line: u64, count: u64, out: &mut [u8]) -> usize
    requires count_in_bounds { length (line_text (tag_of tags) [] Kd.LineData (line ∷ count ∷ []) 2 L.Nothing) ≤ length out.old }
    ensures value { result ≡ length (line_text (tag_of tags.entry) [] Kd.LineData (line ∷ count ∷ []) 2 L.Nothing) }
    ensures out_after { out.new ≡ over (line_text (tag_of tags.entry) [] Kd.LineData (line ∷ count ∷ []) 2 L.Nothing) out.old }
{
    let at = tag_table::put_tag(tags, Kind::LineData, out);
    let n = format::put_pair(b':', line, b',', count, &mut out[at..]);
    let end = at + n;
    out[end] = 10;
    end + 1
}
