// A copy that is made and grown is accepted, stated in specs/ and proved in proofs/: this crate has no code.
#![tactic(auto)]
