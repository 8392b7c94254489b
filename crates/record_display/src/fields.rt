// The fields of a record: its kind, up to four numbers, and its last field. One printer then serves all thirteen kinds.
ghost use Rattle.std.specs.Prelude.{◌≡◌, ◌+◌, ◌≤◌, ◌<◌, true, length};
ghost use Rattle.record_display.specs.Fields.{FieldsOf, last_len, inside};

use model::{Kind, Part, Record};

// The last field of a record, after its numbers.
#[derive(Clone, Copy)]
pub enum Last {
    Nothing,
    Dash,
    Text(Part),
}

// A record's kind, its numbers, which are the first count of the array, and its last field.
#[derive(Clone, Copy)]
pub struct Fields {
    pub kind: Kind,
    pub numbers: [u64; 4],
    pub count: usize,
    pub last: Last,
}

pub fn fields_of(record: Record) -> Fields
    ensures { FieldsOf «record» result }
{
    match record {
        Record::TestName(name) => Fields {
            kind: Kind::TestName,
            numbers: [0, 0, 0, 0],
            count: 0,
            last: Last::Text(name),
        },
        Record::SourceFile(path) => Fields {
            kind: Kind::SourceFile,
            numbers: [0, 0, 0, 0],
            count: 0,
            last: Last::Text(path),
        },
        Record::FunctionName { start, end, name } => match end {
            Some(line) => Fields {
                kind: Kind::FunctionName,
                numbers: [start as u64, line as u64, 0, 0],
                count: 2,
                last: Last::Text(name),
            },
            None => Fields {
                kind: Kind::FunctionName,
                numbers: [start as u64, 0, 0, 0],
                count: 1,
                last: Last::Text(name),
            },
        },
        Record::FunctionData { count, name } => Fields {
            kind: Kind::FunctionData,
            numbers: [count, 0, 0, 0],
            count: 1,
            last: Last::Text(name),
        },
        Record::FunctionsFound(found) => Fields {
            kind: Kind::FunctionsFound,
            numbers: [found as u64, 0, 0, 0],
            count: 1,
            last: Last::Nothing,
        },
        Record::FunctionsHit(hit) => Fields {
            kind: Kind::FunctionsHit,
            numbers: [hit as u64, 0, 0, 0],
            count: 1,
            last: Last::Nothing,
        },
        Record::BranchData {
            line,
            block,
            branch,
            taken,
        } => match taken {
            Some(n) => Fields {
                kind: Kind::BranchData,
                numbers: [line as u64, block as u64, branch as u64, n],
                count: 4,
                last: Last::Nothing,
            },
            None => Fields {
                kind: Kind::BranchData,
                numbers: [line as u64, block as u64, branch as u64, 0],
                count: 3,
                last: Last::Dash,
            },
        },
        Record::BranchesFound(found) => Fields {
            kind: Kind::BranchesFound,
            numbers: [found as u64, 0, 0, 0],
            count: 1,
            last: Last::Nothing,
        },
        Record::BranchesHit(hit) => Fields {
            kind: Kind::BranchesHit,
            numbers: [hit as u64, 0, 0, 0],
            count: 1,
            last: Last::Nothing,
        },
        Record::LineData {
            line,
            count,
            checksum,
        } => match checksum {
            Some(part) => Fields {
                kind: Kind::LineData,
                numbers: [line as u64, count, 0, 0],
                count: 2,
                last: Last::Text(part),
            },
            None => Fields {
                kind: Kind::LineData,
                numbers: [line as u64, count, 0, 0],
                count: 2,
                last: Last::Nothing,
            },
        },
        Record::LinesFound(found) => Fields {
            kind: Kind::LinesFound,
            numbers: [found as u64, 0, 0, 0],
            count: 1,
            last: Last::Nothing,
        },
        Record::LinesHit(hit) => Fields {
            kind: Kind::LinesHit,
            numbers: [hit as u64, 0, 0, 0],
            count: 1,
            last: Last::Nothing,
        },
        Record::EndOfRecord => Fields {
            kind: Kind::EndOfRecord,
            numbers: [0, 0, 0, 0],
            count: 0,
            last: Last::Nothing,
        },
    }
}

// Whether the last field lies within a text of n bytes.
pub fn is_inside(last: Last, n: usize) -> bool
    ensures { result ≡ inside n last }
{
    match last {
        Last::Nothing => true,
        Last::Dash => true,
        Last::Text(part) => {
            let start = part.start;
            let len = part.len;
            start <= n && len <= n - start
        }
    }
}

// The length of the last field.
pub fn last_len(last: Last) -> usize
    requires { last_len last ≤ 9223372036854775808 }
    ensures { result ≡ last_len last }
{
    match last {
        Last::Nothing => 0,
        Last::Dash => 2,
        Last::Text(part) => 1 + part.len,
    }
}
