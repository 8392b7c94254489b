// A bundle of texts (SPEC 7.1): n and T, little-endian u32, then n starts and n lengths, then T text bytes.
#![tactic(auto)]

ghost use Rattle.std.specs.Prelude.{◌≡◌, true, ◌+◌, ◌*◌, ◌≤◌, ◌<◌, length};
ghost use Rattle.model.specs.Limits.{u32_max, max_texts};
ghost use Rattle.model.specs.Bundle.{u32_at, text_count, text_start, text_length, well_formed};
ghost use Rattle.bundle.specs.Marks.{is_marked, NextMarked};
ghost use Rattle.bundle.specs.Places.{part_from, TextsInside, fits_from, well_formed_as};

use model::Part;

// "n at most 64": `max_texts` in model/specs/Limits.antt.
pub const MAX_TEXTS: usize = 64;

// The sizes n and T.
pub const SIZES: usize = 8;

// A text's start and length.
const WIDTH: usize = 8;

// The little-endian u32 at an offset.
pub fn u32_at(bundle: &[u8], at: usize) -> usize
    requires { at + 4 ≤ length bundle.now }
    ensures { (result ≡ u32_at bundle.now at) × (result ≤ u32_max) }
{
    compare::quad(bundle, at) as usize
}

fn text_start(bundle: &[u8], i: usize) -> usize
    requires { 8 + 4 * i + 4 ≤ length bundle.now }
    ensures { (result ≡ text_start bundle.now i) × (result ≤ u32_max) }
{
    u32_at(bundle, SIZES + 4 * i)
}

// The length of the i-th of n texts.
fn text_len(bundle: &[u8], n: usize, i: usize) -> usize
    requires { (n ≡ text_count bundle.now) × (8 + 4 * n + 4 * i + 4 ≤ length bundle.now) }
    ensures { (result ≡ text_length bundle.now i) × (result ≤ u32_max) }
{
    u32_at(bundle, SIZES + 4 * n + 4 * i)
}

// Each start + length is at most T.
fn all_fit(bundle: &[u8], n: usize, total: usize) -> bool
    requires { (n ≡ text_count bundle.now) × (8 + 8 * n ≤ length bundle.now) }
    ensures { result ≡ fits_from bundle.now 0 n total }
{
    for i in 0..n {
        if total < text_start(bundle, i) + text_len(bundle, n, i) {
            return false;
        }
    }
    true
}

// Well formed, with so many bytes in the arrays for each text.
#[tactic(auto, using(crate::proofs::BundleLaws::bad_short, crate::proofs::BundleLaws::bad_count, crate::proofs::BundleLaws::bad_length))]
pub fn is_well_formed_as(bundle: &[u8], width: usize) -> bool
    requires { (8 ≤ width) × (width ≤ 16) }
    ensures { result ≡ well_formed_as width bundle.now }
{
    if bundle.len() < SIZES {
        return false;
    }
    let n = u32_at(bundle, 0);
    let total = u32_at(bundle, 4);
    if MAX_TEXTS < n {
        return false;
    }
    if bundle.len() != SIZES + width * n + total {
        return false;
    }
    all_fit(bundle, n, total)
}

// "Well formed: n at most 64, the slice is exactly 8 + 8n + T long, each start + length is at most T."
pub fn is_well_formed(bundle: &[u8]) -> bool
    ensures { result ≡ well_formed bundle.now }
{
    is_well_formed_as(bundle, WIDTH)
}

// The number of texts.
pub fn text_count(bundle: &[u8]) -> usize
    requires { 8 ≤ length bundle.now }
    ensures { result ≡ text_count bundle.now }
{
    u32_at(bundle, 0)
}

// Where the text bytes begin, behind starts and lengths.
pub fn body_at(bundle: &[u8]) -> usize
    requires { (8 ≤ length bundle.now) × (text_count bundle.now ≤ max_texts) }
    ensures { result ≡ 8 + 8 * text_count bundle.now }
{
    SIZES + WIDTH * text_count(bundle)
}

// Where the i-th text lies in the bundle.
pub fn text_part(bundle: &[u8], body: usize, i: usize) -> Part
    requires { TextsInside bundle.now body × (i < text_count bundle.now) }
    ensures { (result ≡ part_from body bundle.now i) × (result.start + result.len ≤ length bundle.now) }
{
    let n = text_count(bundle);
    let start = text_start(bundle, i);
    let len = text_len(bundle, n, i);
    Part {
        start: body + start,
        len,
    }
}

// Whether the i-th text is chosen: its byte is not 0, or there is none for it.
fn is_marked(marks: &[u8], i: usize) -> bool
    ensures { result ≡ is_marked marks.now i }
{
    i >= marks.len() || marks[i] != 0
}

// The first of the texts from the i-th on that is chosen; n where none is.
pub fn next_marked(marks: &[u8], n: usize, i: usize) -> usize
    requires { i ≤ n }
    ensures { NextMarked marks.now n i result }
{
    for at in i..n {
        if is_marked(marks, at) {
            return at;
        }
    }
    n
}
