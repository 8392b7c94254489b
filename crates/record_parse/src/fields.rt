// The fields of a line. Each reader is handed the part of the line from its field on: "handed on to the field reader, left to right".
ghost use Rattle.std.specs.Prelude.{◌≡◌, ◌+◌, ◌^◌, ◌≤◌, ◌<◌, length};
ghost use Rattle.model.specs.Number.{is_digit};
ghost use Rattle.model.specs.Line.{begins_with_end};
ghost use Rattle.scan.specs.Scan.{next_of};
ghost use Rattle.scan_digits.specs.Word.{ShortRead};
ghost use Rattle.record_parse.specs.Fields.{refused_at, number_refusal, field_of, NumberField, part_from, checksum_from};

use model::{Fault, Part, Record, Refusal};
use scan::Number;

// A number field of a line: the last one, or a comma follows, and the next field starts at a position of the line; or its fault. No
// `Result`: the arm of `let Ok(Field::More { .. }) = first else` then joins two ways, and the proof of that arm (`returns-in_default`)
// has no name for the field that the way through `Ok` saw.
#[derive(Clone, Copy)]
pub(crate) enum Field {
    Last(u64),
    More { value: u64, next: usize },
    Fault(Fault),
}

pub(crate) fn refused(fault: Fault, field: u32) -> Result<Record, Refusal>
    ensures { result ≡ refused_at fault field }
{
    Err(Refusal {
        fault,
        text: 0,
        line: 0,
        field,
        needed: 0,
    })
}

// Why a number is not what its field asks for: its own fault; it is the last field, and one must follow; one follows, and it must
// be the last.
#[tactic(auto, using(crate::proofs::FieldLaws::refusal_of_lem))]
pub(crate) fn number_refusal(got: Field, field: u32) -> Result<Record, Refusal>
    requires { field ≤ 4 }
    ensures { result ≡ number_refusal field got }
{
    match got {
        Field::Fault(fault) => refused(fault, field),
        Field::Last(_value) => refused(Fault::FieldNotFound, field + 1),
        Field::More { value: _v, next: _ } => refused(Fault::TooManyFields, 0),
    }
}

// A number that was read from a position of the line on, as a field.
fn field_of(start: usize, number: Number) -> Field
    requires { start + next_of (Ok number) < 2 ^ 64 }
    ensures { result ≡ field_of start number }
{
    match number {
        Number::Last { value, digits: _ } => Field::Last(value),
        Number::More { value, digits } => Field::More {
            value,
            next: start + digits + 1,
        },
    }
}

// A number up to max that is not short: read digit by digit.
#[tactic(auto, using(crate::proofs::FieldLaws::number_told, crate::proofs::FieldLaws::number_bad, crate::proofs::FieldLaws::number_room))]
pub(crate) fn long_field(start: usize, rest: &[u8], max: u64) -> Field
    requires { start + length rest.now < 2 ^ 64 }
    ensures { NumberField max start rest.now result }
{
    match scan::read_number(rest, max) {
        Ok(number) => field_of(start, number),
        Err(fault) => Field::Fault(fault),
    }
}

// Reads a number up to max; `short` has it already if it is short. The part `rest` starts at a position of the line,
// and so does what follows the number's comma. The caller computes `short`, since the compiler inlines two functions of
// this size and not one of twice the size.
#[tactic(auto, using(crate::proofs::FieldLaws::short_told, crate::proofs::FieldLaws::short_room))]
pub(crate) fn number_field(start: usize, rest: &[u8], short: Option<Number>, max: u64) -> Field
    requires rest_bound { start + length rest.now < 2 ^ 64 }
    requires short_read { ShortRead rest.now short }
    requires le_max { 99999999 ≤ max }
    ensures { NumberField max start rest.now result }
{
    match short {
        Some(number) => field_of(start, number),
        None => long_field(start, rest, max),
    }
}

#[tactic(auto, using(crate::proofs::EndLaws::below_digit, crate::proofs::EndLaws::above_digit))]
fn is_digit(b: u8) -> bool
    ensures { result ≡ is_digit b }
{
    b'0' <= b && b <= b'9'
}

// Whether an end line comes first: digits alone, one or more, up to a comma.
#[tactic(auto, using(crate::proofs::EndLaws::begins_behind, crate::proofs::EndLaws::digit_passed, crate::proofs::EndLaws::comma_met, crate::proofs::EndLaws::other_met, crate::proofs::EndLaws::end_met))]
pub(crate) fn begins_with_end(rest: &[u8]) -> bool
    ensures { result ≡ begins_with_end rest.now }
{
    for i in 0..rest.len() {
        let b = rest[i];
        if !is_digit(b) {
            if b == b',' {
                return 0 < i;
            }
            return false;
        }
    }
    false
}

// A text, which is all that is left, commas included.
pub(crate) fn text_field(start: usize, rest: &[u8]) -> Part
    ensures { result ≡ part_from start rest.now }
{
    Part {
        start,
        len: rest.len(),
    }
}

// A checksum, which is a text; "-" means none.
pub(crate) fn checksum_field(start: usize, rest: &[u8]) -> Option<Part>
    ensures { result ≡ checksum_from start rest.now }
{
    if scan::equal(rest, b"-") {
        return None;
    }
    Some(text_field(start, rest))
}
