// Two packets that a copy takes in may come in any order, stated in specs/ and proved in proofs/: this crate has no code.
#![tactic(auto)]
