// Laws of lists sorted by key: definitions in specs/, theorems in proofs/. There is no code.
#![tactic(auto)]
