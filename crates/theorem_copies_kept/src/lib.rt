// What calls leave of what a copy knows, and of an accepted copy, stated in specs/ and proved in proofs/: this crate has no code.
#![tactic(auto)]
