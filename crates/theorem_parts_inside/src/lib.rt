// That the part which a lookup or a read names lies within the data, stated in specs/ and proved in proofs/: this crate has no code.
#![tactic(auto)]
