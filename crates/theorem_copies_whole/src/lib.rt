// A copy that has taken in every piece is the whole archive, stated in specs/ and proved in proofs/: this crate has no code.
#![tactic(auto)]
