// A text read into the lent scratch: `section::parse`, reached by `Report::from_reader` (SPEC 3.1). "A text is cut at each
// byte 10; an empty last piece is no line." The words hold the state between two lines; see crates section and table.
#![tactic(auto)]

mod effect;

ghost use Rattle.std.specs.Prelude.{◌≡◌, true, ◌≤◌, ◌<◌, length, Err};
ghost use Rattle.model.specs.declared.Refusal.{Refusal};
ghost use Rattle.section.specs.Reading.{SectionRoom, HoldsState};
ghost use Rattle.report_parser.specs.Reader.{at_line, fault_at, LineDone, TextFinished, TextRead as TextIsRead};
ghost use Rattle.tag_table.specs.Tags.{tag_of};

use model::{Fault, Record, Refusal};
use section::State;
use tag_table::Tags;

// The state after a line and where the next line starts.
#[derive(Clone, Copy)]
struct LineRead {
    state: State,
    next: usize,
}

// How many entries are kept and how many rows are in use.
#[derive(Clone, Copy)]
pub struct TextRead {
    pub kept: usize,
    pub used: usize,
}

fn fault_at(line: u64, fault: Fault) -> Refusal
    ensures { result ≡ fault_at line fault }
{
    Refusal {
        line,
        ..Refusal::from(fault)
    }
}

// A line's refusal, at the line's number.
fn at_line(line: u64, refusal: Refusal) -> Refusal
    ensures { result ≡ at_line line refusal }
{
    Refusal { line, ..refusal }
}

// A line that is refused ends the reading there. No caller hands over a record that was read.
fn refused_line(got: Result<Record, Refusal>, number: u64) -> Result<LineRead, Refusal>
    ensures { (refusal : Refusal) → got ≡ Err refusal → result ≡ Err (at_line number refusal) }
{
    match got {
        Err(refusal) => Err(at_line(number, refusal)),
        Ok(_made) => Err(fault_at(number, Fault::UnknownRecord)),
    }
}

// Reads the line that starts at `at`; it has this number.
fn read_line_at(
    tags: Tags,
    text: &[u8],
    words: &mut [u64],
    index: usize,
    limit: usize,
    state: State,
    at: usize,
    number: u64,
) -> Result<LineRead, Refusal>
    requires holds_state { HoldsState text.now words.old index limit state × (at < length text.now) }
    ensures { LineDone (tag_of tags.entry) text.now words.old words.new index limit at number state result }
{
    let len = scan_line::first_line_len(&text[at..]);
    let got = record_parse::read_record(tags, &text[at..at + len]);
    let Ok(made) = got else {
        return refused_line(got, number);
    };
    match effect::step(text, words, index, limit, state, made, at, len) {
        Ok(after) => Ok(LineRead {
            state: after,
            next: at + len + 1,
        }),
        Err(fault) => Err(fault_at(number, fault)),
    }
}

// The text's end: no section may be open, and the kept sections are merged and compacted.
fn finish_text(
    text: &[u8],
    words: &mut [u64],
    index: usize,
    limit: usize,
    state: State,
    number: u64,
) -> Result<TextRead, Refusal>
    requires { HoldsState text.now words.old index limit state }
    ensures { TextFinished text.now words.old words.new index state number result }
{
    if state.inside {
        return Err(fault_at(number, Fault::UnexpectedEof));
    }
    let kept = section::finish(text, words, index, limit, state);
    Ok(TextRead {
        kept,
        used: state.used,
    })
}

// Reads the text that starts at `from` into rows at the front of the words, whose index starts at word `index`; there is room for `limit`
// entries. The rows' names are parts of all that is lent: a bundle's texts are read so that their rows can be compared.
pub fn read_lines(
    tags: Tags,
    text: &[u8],
    from: usize,
    words: &mut [u64],
    index: usize,
    limit: usize,
) -> Result<TextRead, Refusal>
    requires section_room { SectionRoom words.old index limit × (from ≤ length text.now) }
    ensures { TextIsRead (tag_of tags.entry) text.now words.new index limit from result }
{
    let mut state = section::start();
    let mut at = from;
    let mut number = 1;
    // A `while`: it moves by the bytes of a line.
    while at < text.len() {
        match read_line_at(tags, text, words, index, limit, state, at, number) {
            Ok(line) => {
                state = line.state;
                at = line.next;
                number += 1;
            }
            Err(refusal) => {
                return Err(refusal);
            }
        }
    }
    finish_text(text, words, index, limit, state, number)
}
