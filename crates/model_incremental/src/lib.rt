// Gathers of what gathers wrote: definitions in specs/, theorems in proofs/. There is no code.
#![tactic(auto)]
