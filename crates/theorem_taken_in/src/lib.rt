// What a copy is that has taken in a packet, stated in specs/ and proved in proofs/: this crate has no code.
#![tactic(auto)]
