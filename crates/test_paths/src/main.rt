// Compares pairs of paths and writes a line for each: those of SPEC 11.1's case (h), and the spellings that its
// paragraph on paths distinguishes or not.
#![tactic(auto)]

use std::cmp::Ordering;

fn sign(order: Ordering) -> u8 {
    match order {
        Ordering::Less => b'<',
        Ordering::Equal => b'=',
        Ordering::Greater => b'>',
    }
}

// Quoted, since a path may be empty.
fn show(a: &[u8], b: &[u8]) {
    io::write_all(1, b"'");
    io::write_all(1, a);
    io::write_all(1, b"' ");
    io::write_all(1, &[sign(compare::compare_paths(a, b))]);
    io::write_all(1, b" '");
    io::write_all(1, b);
    io::write_all(1, b"'\n");
}

fn case_h() {
    show(b"a//b", b"a/./b");
    show(b"./a", b"a");
    show(b"a/b", b"a-b");
}

fn what_vanishes() {
    show(b"/./a", b"/a");
    show(b"//a", b"/a");
    show(b"a/", b"a");
    show(b"a/.", b"a");
    show(b"a/./b/", b"a//b/.");
}

fn beginnings() {
    show(b"", b"");
    show(b"/", b"");
    show(b"/", b"/.");
    show(b".", b"");
    show(b"./.", b".");
    show(b"/", b".");
    show(b"/z", b"./a");
    show(b"./a", b"..");
}

fn parents() {
    show(b"..", b"a");
    show(b"..", b"-");
    show(b"/..", b"..");
    show(b"a/../b", b"b");
    show(b"a/...", b"a/..");
}

fn names() {
    show(b"a", b"a/b");
    show(b"a/b", b"a/b/c");
    show(b"a/bc", b"a/b/c");
    show(b"src/main.c", b"src/main.h");
}

fn main() {
    case_h();
    what_vanishes();
    beginnings();
    parents();
    names();
}
