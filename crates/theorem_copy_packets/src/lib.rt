// Packets that are made from copies, stated in specs/ and proved in proofs/: this crate has no code.
#![tactic(auto)]
