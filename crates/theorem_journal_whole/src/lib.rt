// The calls on a journal together, stated in specs/ and proved in proofs/: this crate has no code.
#![tactic(auto)]
