// The numbers of a page of totals. The page is defined in specs/, its laws are in proofs/.
#![tactic(auto)]

// How many were hit, of how many found.
#[derive(Clone, Copy)]
pub struct Ratio {
    pub hit: u64,
    pub found: u64,
}

#[derive(Clone, Copy)]
pub struct Totals {
    pub functions: Ratio,
    pub branches: Ratio,
    pub lines: Ratio,
}
