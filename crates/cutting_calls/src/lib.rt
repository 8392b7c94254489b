// Cutting to ranges before or after adding, for what the calls return and write: definitions in specs/, theorems in proofs/. There is no code.
#![tactic(auto)]
