// What a register that is lent as a copy gets from the calls on copies, stated in specs/ and proved in proofs/: this crate has no code.
#![tactic(auto)]
