// Which failure an answer names, stated in specs/ and proved in proofs/: this crate has no code.
#![tactic(auto)]
