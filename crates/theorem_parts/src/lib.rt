// What the parts of an audit and of the comparing walk give together, stated in specs/ and proved in proofs/: this crate has no code.
#![tactic(auto)]
