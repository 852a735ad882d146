// The map between slots and contents: definitions in specs/, laws in proofs/. This crate has no code.
#![tactic(auto)]
