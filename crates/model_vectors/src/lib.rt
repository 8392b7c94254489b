// Worked examples with the Rust's answers, and the proof that the definitions answer the same, are in specs/.
#![tactic(auto)]
