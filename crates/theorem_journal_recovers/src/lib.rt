// What a journal gives back, stated in specs/ and proved in proofs/: this crate has no code.
#![tactic(auto)]
