// The customer's demand 2, stated in specs/ and proved in proofs/: this crate has no code.
#![tactic(auto)]
