// A released piece comes back by taking in a packet, stated in specs/ and proved in proofs/: this crate has no code.
#![tactic(auto)]
