// The scope's worked cases, a table in specs/ and its proof in proofs/: this crate has no code.
#![tactic(auto)]
