// A reader for each kind of line whose body has numbers. Each gets the line, its end trimmed, and where the body starts, and hands
// the part from there, then the part after each comma, on to the field readers.
// A field that is refused ends the reading there: `let .. else` takes each answer apart, as the requirements name it (docs/ARCHITECTURE.md,
// "Forms of code that the requirements name"), and so no `?` stands in its place.
ghost use Rattle.std.specs.Prelude.{◌≡◌, ◌≤◌, length, drop};
ghost use Rattle.model.specs.Line.{read_body, read_one};
ghost use Rattle.model.specs.declared.Kind.TheVariants as Kd;
ghost use Rattle.scan_digits.specs.Word.{ShortRead};
ghost use Rattle.record_parse.specs.Answers.{Answers};
ghost use Rattle.record_parse.specs.Lines.{EndRead, FunctionRead, TakenRead, count_lent, count_made};

use super::fields::{
    Field, begins_with_end, checksum_field, long_field, number_field, number_refusal, refused,
    text_field,
};
use model::{Fault, Part, Record, Refusal};
use scan::Number;

const MAX_U32: u64 = 4294967295;

const MAX_U64: u64 = 18446744073709551615;

// The end of an FN body that has an end line: that line, which must not be below the start line, and a name.
#[tactic(auto, using(crate::proofs::FieldLaws::part_end, crate::proofs::LineLaws::end_up, crate::proofs::LineLaws::more_fits, crate::proofs::LineLaws::end_below, crate::proofs::LineLaws::end_given))]
fn read_end(line: &[u8], at: usize, start: u32) -> Result<Record, Refusal>
    requires { at ≤ length line.now }
    ensures { EndRead start line.now at result }
{
    let short = scan_digits::short_number(line, &line[at..]);
    let second = number_field(at, &line[at..], short, MAX_U32);
    let Field::More { value, next } = second else {
        return number_refusal(second, 2);
    };
    let last = value as u32;
    if last < start {
        return refused(Fault::EndBeforeStart, 0);
    }
    let name = text_field(next, &line[next..]);
    let end = Some(last);
    Ok(Record::FunctionName { start, end, name })
}

// What follows FN's start line: an end line and a name, or a name.
#[tactic(auto, using(crate::proofs::LineLaws::function_end, crate::proofs::LineLaws::function_plain))]
fn read_function(line: &[u8], at: usize, start: u32) -> Result<Record, Refusal>
    requires { at ≤ length line.now }
    ensures { FunctionRead start line.now at result }
{
    if begins_with_end(&line[at..]) {
        return read_end(line, at, start);
    }
    let name = text_field(at, &line[at..]);
    let end = None;
    Ok(Record::FunctionName { start, end, name })
}

// FN: a start line, perhaps an end line, and a name.
pub(crate) fn read_function_name(line: &[u8], at: usize) -> Result<Record, Refusal>
    requires { at ≤ length line.now }
    ensures { Answers line.now result (read_body Kd.FunctionName (drop at line.now)) }
{
    let short = scan_digits::short_number(line, &line[at..]);
    let first = number_field(at, &line[at..], short, MAX_U32);
    let Field::More { value, next } = first else {
        return number_refusal(first, 1);
    };
    read_function(line, next, value as u32)
}

// FNDA: a count and a name.
pub(crate) fn read_function_data(line: &[u8], at: usize) -> Result<Record, Refusal>
    requires { at ≤ length line.now }
    ensures { Answers line.now result (read_body Kd.FunctionData (drop at line.now)) }
{
    let short = scan_digits::short_number(line, &line[at..]);
    let first = number_field(at, &line[at..], short, MAX_U64);
    let Field::More {
        value: count,
        next: rest,
    } = first
    else {
        return number_refusal(first, 1);
    };
    let name = text_field(rest, &line[rest..]);
    Ok(Record::FunctionData { count, name })
}

// The end of a BRDA body: a taken count, which `short` has already if it is short, or "-" for none.
#[tactic(auto, using(crate::proofs::LineLaws::taken_short, crate::proofs::LineLaws::taken_dash, crate::proofs::LineLaws::taken_more, crate::proofs::LineLaws::taken_up, crate::proofs::LineLaws::taken_last))]
fn read_taken(
    line: u32,
    block: u32,
    branch: u32,
    short: Option<Number>,
    rest: &[u8],
) -> Result<Record, Refusal>
    requires { ShortRead rest.now short }
    ensures { TakenRead line block branch rest.now result }
{
    if let Some(
        Number::Last {
            value: count,
            digits: _,
        },
    ) = short
    {
        let taken = Some(count);
        return Ok(Record::BranchData {
            line,
            block,
            branch,
            taken,
        });
    }
    if scan::equal(rest, b"-") {
        let taken = None;
        return Ok(Record::BranchData {
            line,
            block,
            branch,
            taken,
        });
    }
    if scan::starts_with(rest, b"-,") {
        return refused(Fault::TooManyFields, 0);
    }
    let fourth = long_field(0, rest, MAX_U64);
    let Field::Last(count) = fourth else {
        return number_refusal(fourth, 4);
    };
    let taken = Some(count);
    Ok(Record::BranchData {
        line,
        block,
        branch,
        taken,
    })
}

// BRDA: line, block, branch and a taken count.
pub(crate) fn read_branch_data(line: &[u8], at: usize) -> Result<Record, Refusal>
    requires { at ≤ length line.now }
    ensures { Answers line.now result (read_body Kd.BranchData (drop at line.now)) }
{
    let short = scan_digits::short_number(line, &line[at..]);
    let first = number_field(at, &line[at..], short, MAX_U32);
    let Field::More {
        value: number,
        next,
    } = first
    else {
        return number_refusal(first, 1);
    };
    let short = scan_digits::digit_number(line, &line[next..]);
    let second = number_field(next, &line[next..], short, MAX_U32);
    let Field::More { value: block, next } = second else {
        return number_refusal(second, 2);
    };
    let short = scan_digits::digit_number(line, &line[next..]);
    let third = number_field(next, &line[next..], short, MAX_U32);
    let Field::More {
        value: branch,
        next,
    } = third
    else {
        return number_refusal(third, 3);
    };
    let short = scan_digits::short_number(line, &line[next..]);
    read_taken(
        number as u32,
        block as u32,
        branch as u32,
        short,
        &line[next..],
    )
}

// DA: a line number, a count and perhaps a checksum.
pub(crate) fn read_line_data(line: &[u8], at: usize) -> Result<Record, Refusal>
    requires { at ≤ length line.now }
    ensures { Answers line.now result (read_body Kd.LineData (drop at line.now)) }
{
    let short = scan_digits::short_number(line, &line[at..]);
    let first = number_field(at, &line[at..], short, MAX_U32);
    let Field::More { value, next } = first else {
        return number_refusal(first, 1);
    };
    let number = value as u32;
    let short = scan_digits::short_number(line, &line[next..]);
    let second = number_field(next, &line[next..], short, MAX_U64);
    match second {
        Field::Last(count) => Ok(Record::LineData {
            line: number,
            count,
            checksum: None,
        }),
        Field::More { value: count, next } => {
            let checksum = checksum_field(next, &line[next..]);
            Ok(Record::LineData {
                line: number,
                count,
                checksum,
            })
        }
        Field::Fault(fault) => refused(fault, 2),
    }
}

// The kinds that hold one number.
#[derive(Clone, Copy)]
pub(crate) enum Total {
    FunctionsFound,
    FunctionsHit,
    BranchesFound,
    BranchesHit,
    LinesFound,
    LinesHit,
}

// The record of a kind that holds one number.
#[tactic(auto, using(crate::proofs::LineLaws::count_is))]
fn total_record(kind: Total, n: u32) -> Record
    ensures { result ≡ count_lent kind n }
{
    match kind {
        Total::FunctionsFound => Record::FunctionsFound(n),
        Total::FunctionsHit => Record::FunctionsHit(n),
        Total::BranchesFound => Record::BranchesFound(n),
        Total::BranchesHit => Record::BranchesHit(n),
        Total::LinesFound => Record::LinesFound(n),
        Total::LinesHit => Record::LinesHit(n),
    }
}

// FNF, FNH, BRF, BRH, LF, LH: one number.
#[tactic(auto, using(crate::proofs::FieldLaws::first_field, crate::proofs::FieldLaws::part_end, crate::proofs::LineLaws::count_up, crate::proofs::LineLaws::last_fits, crate::proofs::LineLaws::count_last))]
pub(crate) fn read_total(kind: Total, line: &[u8], at: usize) -> Result<Record, Refusal>
    requires { at ≤ length line.now }
    ensures { Answers line.now result (read_one (count_made kind) (drop at line.now)) }
{
    let short = scan_digits::short_number(line, &line[at..]);
    let first = number_field(at, &line[at..], short, MAX_U32);
    let Field::Last(value) = first else {
        return number_refusal(first, 1);
    };
    Ok(total_record(kind, value as u32))
}
