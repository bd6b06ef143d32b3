// No call looks at a byte behind a used size, stated in specs/ and proved in proofs/: this crate has no code.
#![tactic(auto)]
