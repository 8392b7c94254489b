// The rules of a lent table: "each length is 1 to 16, the slot's bytes past it are 0, no tag has byte 10, byte 13 or ':' in it", and no two
// tags are equal.
ghost use Rattle.std.specs.Prelude.{◌≡◌, true, ◌+◌, ◌<◌, eqb, length};
ghost use Rattle.model.specs.Lists.{all};
ghost use Rattle.model.specs.Bytes.{same_bytes};
ghost use Rattle.model.specs.Tags.{all_kinds, tag_byte, differ};
ghost use Rattle.model.specs.TagTable.{tag_at, tag_fits, lent_tag, well_formed_tags};
ghost use Rattle.tag_table.specs.Rules.{other_than};

use crate::{KINDS, SLOT, length_at, tag_at};

// 221: `well_formed_tags` in model/specs/TagTable.antt.
const LENGTH: usize = 221;

fn is_tag_byte(b: u8) -> bool
    ensures { result ≡ tag_byte b }
{
    b != b'\n' && b != b'\r' && b != b':'
}

fn are_tag_bytes(s: &[u8]) -> bool
    ensures { result ≡ all tag_byte s.now }
{
    s.iter().all(|b| is_tag_byte(*b))
}

fn are_zeros(s: &[u8]) -> bool
    ensures { result ≡ all (λ b. eqb b 0) s.now }
{
    s.iter().all(|b| *b == 0)
}

// The rules on tag k by itself.
#[tactic(auto, using(crate::proofs::RuleLaws::length_zero, crate::proofs::RuleLaws::length_large, crate::proofs::RuleLaws::fits_not, crate::proofs::RuleLaws::fits_if))]
fn fits(table: &[u8], k: usize) -> bool
    requires { (length table.now ≡ 221) × (k < 13) }
    ensures { result ≡ tag_fits table.now k }
{
    let n = length_at(table, k);
    if n == 0 || SLOT < n {
        return false;
    }
    let from = KINDS + SLOT * k;
    are_zeros(&table[from + n..from + SLOT]) && are_tag_bytes(&table[from..from + n])
}

#[tactic(auto, using(crate::proofs::RuleLaws::size_wrong, crate::proofs::RuleLaws::fits_first, crate::proofs::RuleLaws::fits_next, crate::proofs::RuleLaws::fits_fails, crate::proofs::RuleLaws::fits_end))]
pub fn is_well_formed(table: &[u8]) -> bool
    ensures { result ≡ well_formed_tags table.now }
{
    if table.len() != LENGTH {
        return false;
    }
    for k in 0..KINDS {
        if !fits(table, k) {
            return false;
        }
    }
    true
}

// Whether tags i and j have the same length and bytes.
#[tactic(auto, using(crate::proofs::RuleLaws::tags_same))]
fn are_equal(table: &[u8], i: usize, j: usize) -> bool
    requires { (well_formed_tags table.now ≡ true) × (i < 13) × (j < 13) }
    ensures { result ≡ same_bytes (tag_at table.now i) (tag_at table.now j) }
{
    scan::equal(tag_at(table, i), tag_at(table, j))
}

// Whether tag k is none of those after it.
#[tactic(auto, using(crate::proofs::RuleLaws::other_fails, crate::proofs::RuleLaws::other_next, crate::proofs::RuleLaws::other_end))]
fn differs(table: &[u8], k: usize) -> bool
    requires { (well_formed_tags table.now ≡ true) × (k < 13) }
    ensures { result ≡ other_than table.now k (k + 1) }
{
    for j in k + 1..KINDS {
        if are_equal(table, j, k) {
            return false;
        }
    }
    true
}

// Whether no two tags are equal.
#[tactic(auto, using(crate::proofs::RuleLaws::differ_first, crate::proofs::RuleLaws::differ_fails, crate::proofs::RuleLaws::differ_next, crate::proofs::RuleLaws::differ_end))]
pub fn all_differ(table: &[u8]) -> bool
    requires { well_formed_tags table.now ≡ true }
    ensures { result ≡ differ (lent_tag table.now) all_kinds }
{
    for k in 0..KINDS {
        if !differs(table, k) {
            return false;
        }
    }
    true
}
