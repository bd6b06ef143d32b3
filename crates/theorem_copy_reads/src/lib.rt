// What a call on a copy can depend on: the entries that it knows. Stated in specs/ and proved in proofs/: this crate has no code.
#![tactic(auto)]
