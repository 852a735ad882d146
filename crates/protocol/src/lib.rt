// The vault by contents, its runs and their agreement: definitions in specs/, laws in proofs/. This crate has no code.
#![tactic(auto)]
