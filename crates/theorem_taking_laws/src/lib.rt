// Laws of what a taking in leaves, in proofs/: this crate has no code.
#![tactic(auto)]
