// The thirteen tags (SPEC 2.2): a lent table is checked, a tag's kind is told, and a kind's tag is written.
#![tactic(auto)]

ghost use Rattle.std.specs.Prelude.{◌≡◌, true, [], ◌≤◌, ◌<◌, eqb, length};
ghost use Rattle.model.specs.Bytes.{before, same_bytes};
ghost use Rattle.model.specs.Tags.{default_tag};
ghost use Rattle.model.specs.TagTable.{place_of, tag_length, tag_at, lent_tag, well_formed_tags, tags_of, are_tags};
ghost use Rattle.format.specs.Put.{over};
ghost use Rattle.tag_table.specs.Kinds.{body_at, ends_at, TaggedAs, FoundIn};
ghost use Rattle.tag_table.specs.Loading.{LoadedAs};
ghost use Rattle.tag_table.specs.Tags.{tag_of};

mod default;
mod rules;
mod tags;

use model::{Fault, Kind};
pub use tags::Tags;

// The kind that a line's tag has, and where the line's body starts.
#[derive(Clone, Copy)]
pub struct Tagged {
    pub kind: Kind,
    pub at: usize,
}

// "thirteen length bytes first, then thirteen slots of 16 bytes".
const KINDS: usize = 13;

const SLOT: usize = 16;

// The place of a kind in the order of `RecordKind`.
fn place_of(kind: Kind) -> usize
    ensures { (result ≡ place_of kind) × (result < 13) }
{
    match kind {
        Kind::TestName => 0,
        Kind::SourceFile => 1,
        Kind::FunctionName => 2,
        Kind::FunctionData => 3,
        Kind::FunctionsFound => 4,
        Kind::FunctionsHit => 5,
        Kind::BranchData => 6,
        Kind::BranchesFound => 7,
        Kind::BranchesHit => 8,
        Kind::LineData => 9,
        Kind::LinesFound => 10,
        Kind::LinesHit => 11,
        Kind::EndOfRecord => 12,
    }
}

// The kind at a place.
fn kind_at(k: usize) -> Kind
    requires { k < 13 }
    ensures { place_of result ≡ k }
{
    match k {
        0 => Kind::TestName,
        1 => Kind::SourceFile,
        2 => Kind::FunctionName,
        3 => Kind::FunctionData,
        4 => Kind::FunctionsFound,
        5 => Kind::FunctionsHit,
        6 => Kind::BranchData,
        7 => Kind::BranchesFound,
        8 => Kind::BranchesHit,
        9 => Kind::LineData,
        10 => Kind::LinesFound,
        11 => Kind::LinesHit,
        _ => Kind::EndOfRecord,
    }
}

// Where the body starts: after the colon, or at the end.
#[tactic(auto, using(crate::proofs::KindLaws::body_after, crate::proofs::KindLaws::body_none))]
fn body_at(n: usize, colon: usize) -> usize
    requires { colon ≤ n }
    ensures { (result ≡ body_at n colon) × (result ≤ n) }
{
    if colon < n {
        return colon + 1;
    }
    colon
}

// The length of tag k.
#[tactic(auto, using(crate::proofs::SlotLaws::length_at))]
fn length_at(table: &[u8], k: usize) -> usize
    requires { k < length table.now }
    ensures { (result ≡ tag_length table.now k) × (result ≤ 255) }
{
    table[k] as usize
}

// Tag k.
fn tag_at(table: &[u8], k: usize) -> &[u8]
    requires { (well_formed_tags table.now ≡ true) × (k < 13) }
    ensures { result.now ≡ tag_at table.now k }
{
    let from = KINDS + SLOT * k;
    let n = length_at(table, k);
    &table[from..from + n]
}

// Whether a line ends after n bytes or goes on with a colon.
#[tactic(auto, using(crate::proofs::KindLaws::ends_colon, crate::proofs::KindLaws::ends_line))]
fn ends_at(s: &[u8], n: usize) -> bool
    ensures { result ≡ ends_at s.now n }
{
    if n < s.len() {
        return s[n] == b':';
    }
    n == s.len()
}

// Whether a line has tag k: the line starts with it, and then ends or goes on with a colon, which no tag has in it.
#[tactic(auto, using(crate::proofs::KindLaws::has_room, crate::proofs::KindLaws::has_not, crate::proofs::KindLaws::has_if))]
fn has_tag(table: &[u8], k: usize, s: &[u8]) -> bool
    requires { (well_formed_tags table.now ≡ true) × (k < 13) }
    ensures { result ≡ same_bytes (before 58 s.now) (tag_at table.now k) }
{
    let tag = tag_at(table, k);
    let n = tag.len();
    ends_at(s, n) && scan::equal(&s[..n], tag)
}

// The kind of tag k of a table, which a line has.
#[tactic(auto, using(crate::proofs::KindLaws::known_within, crate::proofs::KindLaws::known_is))]
fn known(tags: &[u8], k: usize, s: &[u8]) -> Tagged
    requires { (well_formed_tags tags.now ≡ true) × (k < 13) × (same_bytes (before 58 s.now) (tag_at tags.now k) ≡ true) }
    ensures { TaggedAs (lent_tag tags.now) s.now result }
{
    let tag = tag_at(tags, k);
    Tagged {
        kind: kind_at(k),
        at: body_at(s.len(), tag.len()),
    }
}

// The kind of a line's tag by a table, tag by tag.
#[tactic(auto, using(crate::proofs::KindLaws::has_it, crate::proofs::KindLaws::none_first, crate::proofs::KindLaws::none_next, crate::proofs::KindLaws::none_found))]
fn search_kind(tags: &[u8], s: &[u8]) -> Option<Tagged>
    requires { well_formed_tags tags.now ≡ true }
    ensures { FoundIn (lent_tag tags.now) s.now result }
{
    for k in 0..KINDS {
        if has_tag(tags, k, s) {
            return Some(known(tags, k, s));
        }
    }
    None
}

// The kind of a line's tag by a table. Most lines are DA and BRDA: these are tried first.
#[tactic(auto, using(crate::proofs::KindLaws::has_it))]
fn lent_kind(tags: &[u8], s: &[u8]) -> Option<Tagged>
    requires { well_formed_tags tags.now ≡ true }
    ensures { FoundIn (lent_tag tags.now) s.now result }
{
    if has_tag(tags, 9, s) {
        return Some(known(tags, 9, s));
    }
    if has_tag(tags, 6, s) {
        return Some(known(tags, 6, s));
    }
    search_kind(tags, s)
}

impl<'a> Tags<'a> {
    // The default tags.
    pub fn defaults() -> Self
        ensures { tag_of result ≡ default_tag }
    {
        Tags { table: b"" }
    }

    // The tags of a table that is known to keep the rules that `load` checks, or the default tags, where it is empty.
    pub fn of(table: &'a [u8]) -> Self
        requires { are_tags table.now ≡ true }
        ensures { tag_of result ≡ tags_of table.now }
    {
        Tags { table }
    }

    // Whether these are the default tags: no table is lent.
    pub fn are_default(self) -> bool
        ensures told { result ≡ eqb (length self.entry.table.now) 0 }
        ensures tags { result ≡ true → tag_of self.entry ≡ default_tag }
    {
        self.table.len() == 0
    }
}

// Tells the kind of a line's tag, and where the line's body starts.
#[tactic(auto, using(crate::proofs::DefaultLaws::default_found, crate::proofs::SlotLaws::lent_well, crate::proofs::KindLaws::lent_found))]
pub fn kind_of(tags: Tags, s: &[u8]) -> Option<Tagged>
    ensures { FoundIn (tag_of tags.entry) s.now result }
{
    if tags.table.len() == 0 {
        return default::kind_of(s);
    }
    lent_kind(tags.table, s)
}

// The length of a kind's tag.
pub fn tag_len(tags: Tags, kind: Kind) -> usize
    ensures { (result ≡ length (tag_of tags.entry kind)) × (result ≤ 16) }
{
    if tags.table.len() == 0 {
        return default::tag_len(kind);
    }
    let tag = tag_at(tags.table, place_of(kind));
    tag.len()
}

// Writes a kind's tag at the front of out.
pub fn put_tag(tags: Tags, kind: Kind, out: &mut [u8]) -> usize
    requires { length (tag_of tags kind) ≤ length out.old }
    ensures { (result ≡ length (tag_of tags.entry kind)) × (out.new ≡ over (tag_of tags.entry kind) out.old) }
{
    if tags.table.len() != 0 {
        return format::put_bytes(tag_at(tags.table, place_of(kind)), out);
    }
    default::put_tag(kind, out)
}

// Checks a table that a caller lends: "a slice that is not 221 long or breaks a rule on a single tag with 21, and two equal tags with 22,
// in that order".
#[tactic(auto, using(crate::proofs::LoadLaws::load_well, crate::proofs::LoadLaws::load_all, crate::proofs::LoadLaws::load_equal, crate::proofs::LoadLaws::load_malformed))]
pub fn load(table: &[u8]) -> Result<Tags, Fault>
    ensures { LoadedAs table.entry.now result }
{
    if !rules::is_well_formed(table) {
        return Err(Fault::MalformedTags);
    }
    if !rules::all_differ(table) {
        return Err(Fault::EqualTags);
    }
    Ok(Tags { table })
}
