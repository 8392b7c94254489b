// The default tags, "those of `RecordKind::as_str`": known where they are read and written.
// They are fixed byte strings, compared when reading and written when printing, as the requirements name it (docs/ARCHITECTURE.md).
ghost use Rattle.std.specs.Prelude.{◌≡◌, ◌≤◌, length};
ghost use Rattle.model.specs.Bytes.{before};
ghost use Rattle.model.specs.Tags.{all_kinds, default_tag};
ghost use Rattle.format.specs.Put.{over};
ghost use Rattle.tag_table.specs.Kinds.{FoundIn, totals, NamedAs};
ghost use Rattle.tag_table.specs.Written.{TagOf};

use crate::{Tagged, body_at};
use model::Kind;

// FNF, FNH, BRF, BRH, LF and LH. No `match` of byte strings: each length and byte at which a tag differs is a path of its own to the last
// arm, and the proof that no kind has such a tag has as many cases.
fn total_of(tag: &[u8]) -> Option<Kind>
    ensures { NamedAs totals tag.now result }
{
    if scan::equal(tag, b"LF") {
        return Some(Kind::LinesFound);
    }
    if scan::equal(tag, b"LH") {
        return Some(Kind::LinesHit);
    }
    if scan::equal(tag, b"FNF") {
        return Some(Kind::FunctionsFound);
    }
    if scan::equal(tag, b"FNH") {
        return Some(Kind::FunctionsHit);
    }
    if scan::equal(tag, b"BRF") {
        return Some(Kind::BranchesFound);
    }
    if scan::equal(tag, b"BRH") {
        return Some(Kind::BranchesHit);
    }
    None
}

// The kind of a tag.
fn named(tag: &[u8]) -> Option<Kind>
    ensures { NamedAs all_kinds tag.now result }
{
    if scan::equal(tag, b"DA") {
        return Some(Kind::LineData);
    }
    if scan::equal(tag, b"BRDA") {
        return Some(Kind::BranchData);
    }
    if scan::equal(tag, b"FNDA") {
        return Some(Kind::FunctionData);
    }
    if scan::equal(tag, b"FN") {
        return Some(Kind::FunctionName);
    }
    if scan::equal(tag, b"TN") {
        return Some(Kind::TestName);
    }
    if scan::equal(tag, b"SF") {
        return Some(Kind::SourceFile);
    }
    if scan::equal(tag, b"end_of_record") {
        return Some(Kind::EndOfRecord);
    }
    total_of(tag)
}

// The kind of a line's tag, which ends at the line's first colon.
#[tactic(auto, using(crate::proofs::DefaultLaws::named_found, crate::proofs::DefaultLaws::named_none))]
fn searched(s: &[u8]) -> Option<Tagged>
    ensures { FoundIn default_tag s.now result }
{
    let colon = scan::find(s, b':');
    let kind = named(&s[..colon])?;
    let at = body_at(s.len(), colon);
    Some(Tagged { kind, at })
}

// Tells the kind of a line's tag, and where the line's body starts. Most lines are DA and BRDA: these are recognised without a search for
// the colon. No `match`: it tests the length and the first byte of the longer tag first, and a DA line then takes 13 instructions more
// (callgrind, 171 to read one).
#[tactic(auto, using(crate::proofs::DefaultLaws::data_found, crate::proofs::DefaultLaws::branch_found))]
pub fn kind_of(s: &[u8]) -> Option<Tagged>
    ensures { FoundIn default_tag s.now result }
{
    if let [b'D', b'A', b':', ..] = s {
        return Some(Tagged {
            kind: Kind::LineData,
            at: 3,
        });
    }
    if let [b'B', b'R', b'D', b'A', b':', ..] = s {
        return Some(Tagged {
            kind: Kind::BranchData,
            at: 5,
        });
    }
    searched(s)
}

// A tag: the first len of the bytes.
#[derive(Clone, Copy)]
struct Tag {
    bytes: [u8; 13],
    len: usize,
}

fn tag_of(kind: Kind) -> Tag
    ensures { TagOf kind result }
{
    match kind {
        Kind::TestName => Tag {
            bytes: *b"TN           ",
            len: 2,
        },
        Kind::SourceFile => Tag {
            bytes: *b"SF           ",
            len: 2,
        },
        Kind::FunctionName => Tag {
            bytes: *b"FN           ",
            len: 2,
        },
        Kind::FunctionData => Tag {
            bytes: *b"FNDA         ",
            len: 4,
        },
        Kind::FunctionsFound => Tag {
            bytes: *b"FNF          ",
            len: 3,
        },
        Kind::FunctionsHit => Tag {
            bytes: *b"FNH          ",
            len: 3,
        },
        Kind::BranchData => Tag {
            bytes: *b"BRDA         ",
            len: 4,
        },
        Kind::BranchesFound => Tag {
            bytes: *b"BRF          ",
            len: 3,
        },
        Kind::BranchesHit => Tag {
            bytes: *b"BRH          ",
            len: 3,
        },
        Kind::LineData => Tag {
            bytes: *b"DA           ",
            len: 2,
        },
        Kind::LinesFound => Tag {
            bytes: *b"LF           ",
            len: 2,
        },
        Kind::LinesHit => Tag {
            bytes: *b"LH           ",
            len: 2,
        },
        Kind::EndOfRecord => Tag {
            bytes: *b"end_of_record",
            len: 13,
        },
    }
}

pub fn tag_len(kind: Kind) -> usize
    ensures { (result ≡ length (default_tag kind)) × (result ≤ 13) }
{
    let t = tag_of(kind);
    t.len
}

// Writes the tag of any kind at the front of out.
fn put_any(kind: Kind, out: &mut [u8]) -> usize
    requires { length (default_tag kind) ≤ length out.old }
    ensures { (result ≡ length (default_tag kind)) × (out.new ≡ over (default_tag kind) out.old) }
{
    let t = tag_of(kind);
    let bytes = t.bytes;
    let len = t.len;
    format::put_bytes(&bytes[..len], out)
}

// Writes the tag of a kind at the front of out. Most lines are DA and BRDA: their tags are known where they are written.
pub fn put_tag(kind: Kind, out: &mut [u8]) -> usize
    requires { length (default_tag kind) ≤ length out.old }
    ensures { (result ≡ length (default_tag kind)) × (out.new ≡ over (default_tag kind) out.old) }
{
    match kind {
        Kind::LineData => format::put_bytes(b"DA", out),
        Kind::BranchData => format::put_bytes(b"BRDA", out),
        _ => put_any(kind, out),
    }
}
