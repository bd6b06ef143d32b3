// What reading a journal accepts, stated in specs/ and proved in proofs/: this crate has no code.
#![tactic(auto)]
