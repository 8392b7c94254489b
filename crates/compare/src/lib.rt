// Three-way comparison of byte strings and paths. SPEC 4 says which keys compare how. Numbers have the library's `cmp`, of which
// proofs/OrderLaws.antt has laws.
#![tactic(auto)]

mod path;
mod prefix;

ghost use Rattle.std.specs.Prelude.{◌≡◌};
ghost use Rattle.model.specs.Bytes.{compare_bytes};
ghost use Rattle.compare.specs.Orders.{order_of};

pub use path::compare_paths;
pub use prefix::{common_prefix, quad, word};
use std::cmp::Ordering;

// By bytes, a proper prefix first.
pub fn compare_bytes(a: &[u8], b: &[u8]) -> Ordering
    ensures { order_of result ≡ compare_bytes a.now b.now }
{
    let n = common_prefix(a, b);
    if n == a.len() {
        return n.cmp(&b.len());
    }
    if n == b.len() {
        return Ordering::Greater;
    }
    a[n].cmp(&b[n])
}
