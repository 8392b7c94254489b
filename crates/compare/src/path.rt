// Paths compared by components, as Unix `Path` does (SPEC 4.2, and case (h) of SPEC 11). A path is cut into pieces at its slashes; most
// pieces are components.
ghost use Rattle.std.specs.Prelude.{◌≡◌, true, ◌≤◌, length};
ghost use Rattle.model.specs.Bytes.{compare_bytes, same_bytes};
ghost use Rattle.model.specs.Path.{code, components, compare_paths};
ghost use Rattle.compare.specs.Orders.{order_of};
ghost use Rattle.compare.specs.Pieces.{PieceEnd, NameStart, component_of, rank_of, is_component, components_from, NextComponent, none_against, InName};

use crate::compare_bytes;
use crate::prefix::common_prefix;
use std::cmp::Ordering;

// Where the piece that starts at place p ends: at the next slash, or with the path.
fn piece_end(path: &[u8], p: usize) -> usize
    requires { p ≤ length path.now }
    ensures { PieceEnd path.now p result }
{
    for i in p..path.len() {
        if path[i] == b'/' {
            return i;
        }
    }
    path.len()
}

// The place behind the last slash before place n, or 0 where there is none.
fn name_start(path: &[u8], n: usize) -> usize
    requires { n ≤ length path.now }
    ensures { NameStart path.now n result }
{
    for i in (0..n).rev() {
        if path[i] == b'/' {
            return i + 1;
        }
    }
    0
}

// The lengths come first, since nearly every name differs from "." and ".." in that.
fn equal(a: &[u8], b: &[u8]) -> bool
    ensures { result ≡ same_bytes a.now b.now }
{
    a.len() == b.len() && compare_bytes(a, b).is_eq()
}

// The rank of a piece as a component: root, leading '.', '..', other names.
fn rank(piece: &[u8]) -> u64
    ensures { result ≡ rank_of (component_of piece.now) }
{
    if piece.len() == 0 {
        return 0;
    }
    if equal(piece, b".") {
        return 1;
    }
    if equal(piece, b"..") {
        return 2;
    }
    3
}

// Whether the piece from s to e is a component. An empty piece and '.' are components only where the path begins, and the empty path
// has none.
fn is_component(path: &[u8], s: usize, e: usize) -> bool
    requires { (s ≤ e) × (e ≤ length path.now) }
    ensures { result ≡ is_component path.now s e }
{
    if s == 0 {
        return 0 < path.len();
    }
    1 < rank(&path[s..e])
}

// The piece of a component.
#[derive(Clone, Copy)]
struct Piece {
    start: usize,
    end: usize,
}

// The first component whose piece starts at `from` or later.
fn next_component(path: &[u8], from: usize) -> Option<Piece>
    ensures { NextComponent path.now from result }
{
    let mut p = from;
    // by pieces, not by bytes
    while p <= path.len() {
        let end = piece_end(path, p);
        if is_component(path, p, end) {
            return Some(Piece { start: p, end });
        }
        p = end + 1;
    }
    None
}

// By rank, then by bytes. Components of one rank that are no names have the same bytes.
fn compare_components(x: &[u8], y: &[u8]) -> Ordering
    ensures { order_of result ≡ compare_bytes (code (component_of x.now)) (code (component_of y.now)) }
{
    rank(x).cmp(&rank(y)).then(compare_bytes(x, y))
}

// A path that has no more components, against what the other has.
fn none_against(y: Option<Piece>) -> Ordering
    ensures { order_of result ≡ none_against y }
{
    match y {
        Some(_) => Ordering::Less,
        None => Ordering::Equal,
    }
}

// The components from place `from` on in both.
fn compare_from(a: &[u8], b: &[u8], from: usize) -> Ordering
    ensures { order_of result ≡ compare_paths (components_from a.now from) (components_from b.now from) }
{
    let mut p = from;
    let mut q = from;
    // no `for`: moves by components in both paths, and by different steps
    loop {
        let y = next_component(b, q);
        let Some(x) = next_component(a, p) else {
            return none_against(y);
        };
        let Some(y) = y else {
            return Ordering::Greater;
        };
        let order = compare_components(&a[x.start..x.end], &b[y.start..y.end]);
        if order.is_ne() {
            return order;
        }
        p = x.end + 1;
        q = y.end + 1;
    }
}

// Whether a byte occurs in names only.
fn in_name(byte: u8) -> bool
    ensures { result ≡ true → InName byte }
{
    byte != b'/' && byte != b'.'
}

// Up to the last slash of what both spell alike the components are the same, so the comparison starts behind it. Most paths first differ
// inside a name, and the two bytes there decide.
pub fn compare_paths(a: &[u8], b: &[u8]) -> Ordering
    ensures { order_of result ≡ compare_paths (components a.now) (components b.now) }
{
    let n = common_prefix(a, b);
    if a.len() == n && b.len() == n {
        return Ordering::Equal;
    }
    if n < a.len() && n < b.len() && in_name(a[n]) && in_name(b[n]) {
        return a[n].cmp(&b[n]);
    }
    compare_from(a, b, name_start(a, n))
}
