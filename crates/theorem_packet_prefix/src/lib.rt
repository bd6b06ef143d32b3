// Packets of the first m chunks, stated in specs/ and proved in proofs/: this crate has no code.
#![tactic(auto)]
