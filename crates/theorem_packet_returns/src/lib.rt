// A released piece of a register comes back by the packet made before, stated in specs/ and proved in proofs/: this crate has no code.
#![tactic(auto)]
