// A line read: `Record::from_str`, SPEC 2.
#![tactic(auto)]

ghost use Rattle.std.specs.Prelude.{◌≡◌, ◌≤◌, length, drop, true};
ghost use Rattle.model.specs.Line.{read_body};
ghost use Rattle.model.specs.Parts.{lent_record, lent_line};
ghost use Rattle.model.specs.Number.{read_field};
ghost use Rattle.model.specs.Calls.{ValueCall};
ghost use Rattle.record_parse.specs.Answers.{Answers};
ghost use Rattle.record_parse.specs.Lines.{TotalOf};
ghost use Rattle.tag_table.specs.Tags.{tag_of};

mod fields;
mod lines;

use fields::{refused, text_field};
use lines::Total;
use model::{Counted, Fault, Kind, Record, Refusal};
use scan::Number;
use tag_table::{Tagged, Tags};

// The kind, if it holds one number; any other is taken for LH.
fn total_of(kind: Kind) -> Total
    ensures { TotalOf kind result }
{
    match kind {
        Kind::FunctionsFound => Total::FunctionsFound,
        Kind::FunctionsHit => Total::FunctionsHit,
        Kind::BranchesFound => Total::BranchesFound,
        Kind::BranchesHit => Total::BranchesHit,
        Kind::LinesFound => Total::LinesFound,
        _ => Total::LinesHit,
    }
}

// The body of a line of this kind, which starts at a position.
fn read_body(kind: Kind, line: &[u8], at: usize) -> Result<Record, Refusal>
    requires { at ≤ length line.now }
    ensures { Answers line.now result (read_body kind (drop at line.now)) }
{
    match kind {
        Kind::LineData => lines::read_line_data(line, at),
        Kind::BranchData => lines::read_branch_data(line, at),
        Kind::FunctionData => lines::read_function_data(line, at),
        Kind::FunctionName => lines::read_function_name(line, at),
        Kind::TestName => Ok(Record::TestName(text_field(at, &line[at..]))),
        Kind::SourceFile => Ok(Record::SourceFile(text_field(at, &line[at..]))),
        Kind::EndOfRecord => Ok(Record::EndOfRecord),
        _ => lines::read_total(total_of(kind), line, at),
    }
}

// Reads a line; its refusal has no line number yet.
#[tactic(auto, using(crate::proofs::TagLaws::record_read, crate::proofs::TagLaws::record_unknown, crate::proofs::TagLaws::found_within))]
pub fn read_record(tags: Tags, line: &[u8]) -> Result<Record, Refusal>
    ensures { ValueCall (lent_record (tag_of tags.entry) line.now) result }
{
    let s = scan::trim(line);
    match tag_table::kind_of(tags, s) {
        Some(Tagged { kind, at }) => read_body(kind, s, at),
        None => refused(Fault::UnknownRecord, 0),
    }
}

// Reads a lone line, which is line 1.
#[tactic(auto, using(crate::proofs::TagLaws::lone_read, crate::proofs::TagLaws::lone_refused))]
pub fn read_line(tags: Tags, line: &[u8]) -> Result<Record, Refusal>
    ensures { ValueCall (lent_line (tag_of tags.entry) line.now) result }
{
    let got = read_record(tags, line);
    match got {
        Ok(record) => Ok(record),
        Err(r) => {
            let fault = r.fault;
            Err(Refusal {
                fault,
                text: r.text,
                line: 1,
                field: r.field,
                needed: r.needed,
            })
        }
    }
}

// Reads one number field, a number up to max: its value, and how many digits were read. A refusal has no place.
pub fn read_number(field: &[u8], max: u64) -> Result<Counted, Refusal>
    ensures { ValueCall (read_field max field.now) result }
{
    if scan::starts_with(field, b",") {
        return Err(Refusal::from(Fault::InvalidDigit));
    }
    match scan::read_number(field, max) {
        Ok(Number::Last { value, digits }) => Ok(Counted { value, digits }),
        Ok(
            Number::More {
                value: _value,
                digits: _,
            },
        ) => Err(Refusal::from(Fault::InvalidDigit)),
        Err(fault) => Err(Refusal::from(fault)),
    }
}
