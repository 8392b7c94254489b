// Bundles with revisions, for what the calls return and write: definitions in specs/, the theorem in proofs/. There is no code.
#![tactic(auto)]
