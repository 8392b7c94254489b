// The plain values that cross every call: records and their parts, ranges, modes, and refusals. A call that may be refused returns a
// `Result` with a `Refusal`.
// specs/ defines what they mean.
#![tactic(auto)]

ghost use Rattle.std.specs.Prelude.{◌≡◌};
ghost use Rattle.model.specs.Answer.{number_of, unplaced};

// Why a call is refused. `number_of` in specs/Answer.antt gives each its number in SPEC 9.1's table; the names of the faults that
// the Rust has too are the Rust's.
#[derive(Clone, Copy)]
pub enum Fault {
    UnknownRecord,
    FieldNotFound,
    TooManyFields,
    EmptyNumber,
    InvalidDigit,
    NumberOverflow,
    UnexpectedRecord,
    UnexpectedEof,
    CallOverflow,
    TooManyEntries,
    UnmatchedFunctionLine,
    UnmatchedChecksum,
    CountOverflow,
    OutputTooShort,
    RangesFull,
    MalformedBundle,
    PartOutside,
    MalformedRanges,
    SignedNumber,
    RepeatedRevision,
    MalformedTags,
    EqualTags,
    EndBeforeStart,
    WidthOutside,
    SecondSourceFile,
    DifferentKeys,
    LeastAboveGreatest,
    MalformedLabs,
}

// A fault and its place: the text's index from 0, the line and the field from 1, and the length that an output would need. What a
// fault does not have is 0.
#[derive(Clone, Copy)]
pub struct Refusal {
    pub fault: Fault,
    pub text: u32,
    pub line: u64,
    pub field: u32,
    pub needed: u64,
}

// The thirteen kinds of record, in the order of `RecordKind`.
#[derive(Clone, Copy)]
pub enum Kind {
    TestName,
    SourceFile,
    FunctionName,
    FunctionData,
    FunctionsFound,
    FunctionsHit,
    BranchData,
    BranchesFound,
    BranchesHit,
    LineData,
    LinesFound,
    LinesHit,
    EndOfRecord,
}

// A part of the lent text: a start and a length.
#[derive(Clone, Copy)]
pub struct Part {
    pub start: usize,
    pub len: usize,
}

// A record whose texts are parts of the lent text.
#[derive(Clone, Copy)]
pub enum Record {
    // "TN:decoder"
    TestName(Part),
    // "SF:src/decoder.c"
    SourceFile(Part),
    // "FN:10,main", or with the line where it ends "FN:10,12,main"
    FunctionName {
        start: u32,
        end: Option<u32>,
        name: Part,
    },
    // "FNDA:1,main"
    FunctionData {
        count: u64,
        name: Part,
    },
    // "FNF:1"
    FunctionsFound(u32),
    // "FNH:1"
    FunctionsHit(u32),
    // "BRDA:10,0,1,5", or "BRDA:10,0,1,-" for a block that never ran
    BranchData {
        line: u32,
        block: u32,
        branch: u32,
        taken: Option<u64>,
    },
    // "BRF:2"
    BranchesFound(u32),
    // "BRH:1"
    BranchesHit(u32),
    // "DA:10,5", or with a checksum "DA:10,5,1B2M2Y8A"
    LineData {
        line: u32,
        count: u64,
        checksum: Option<Part>,
    },
    // "LF:3"
    LinesFound(u32),
    // "LH:2"
    LinesHit(u32),
    // "end_of_record"
    EndOfRecord,
}

// How two given start lines or checksums meet: they must agree, or the later one wins.
#[derive(Clone, Copy)]
pub enum Mode {
    Checked,
    Lossy,
}

// Which start bounds a function that gives no end: that of the next function in printing order, or the next greater one.
#[derive(Clone, Copy)]
pub enum Bound {
    NextStart,
    GreaterStart,
}

// A range of lines, both ends in it.
#[derive(Clone, Copy)]
pub struct Range {
    pub start: u32,
    pub end: u32,
}

// A number field that was read: its value, and how many digits were read, leading zeros among them.
#[derive(Clone, Copy)]
pub struct Counted {
    pub value: u64,
    pub digits: usize,
}

// SPEC 9.1's number of a fault.
impl From<Fault> for u32 {
    ghost from_gives = { λ fault n. n ≡ number_of fault };

    fn from(fault: Fault) -> u32 {
        match fault {
            Fault::UnknownRecord => 1,
            Fault::FieldNotFound => 2,
            Fault::TooManyFields => 3,
            Fault::EmptyNumber => 4,
            Fault::InvalidDigit => 5,
            Fault::NumberOverflow => 6,
            Fault::UnexpectedRecord => 7,
            Fault::UnexpectedEof => 8,
            Fault::CallOverflow => 9,
            Fault::TooManyEntries => 10,
            Fault::UnmatchedFunctionLine => 11,
            Fault::UnmatchedChecksum => 12,
            Fault::CountOverflow => 13,
            Fault::OutputTooShort => 14,
            Fault::RangesFull => 15,
            Fault::MalformedBundle => 16,
            Fault::PartOutside => 17,
            Fault::MalformedRanges => 18,
            Fault::SignedNumber => 19,
            Fault::RepeatedRevision => 20,
            Fault::MalformedTags => 21,
            Fault::EqualTags => 22,
            Fault::EndBeforeStart => 23,
            Fault::WidthOutside => 24,
            Fault::SecondSourceFile => 25,
            Fault::DifferentKeys => 27,
            Fault::LeastAboveGreatest => 28,
            Fault::MalformedLabs => 29,
        }
    }
}

// A fault that has no place.
impl From<Fault> for Refusal {
    ghost from_gives = { λ fault r. r ≡ unplaced fault };

    fn from(fault: Fault) -> Refusal {
        Refusal {
            fault,
            text: 0,
            line: 0,
            field: 0,
            needed: 0,
        }
    }
}
