// Bounds of sampled counts (SPEC 7.8): how many lines, functions and branches a run can have hit. specs/ defines what they are.
#![tactic(auto)]

// How many lines, functions and branches are hit.
#[derive(Clone, Copy)]
pub struct Hits {
    pub lines: u64,
    pub functions: u64,
    pub branches: u64,
}

// Of the least and of the greatest counts.
#[derive(Clone, Copy)]
pub struct Bounds {
    pub least: Hits,
    pub greatest: Hits,
}
