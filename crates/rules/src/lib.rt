// Vaults and quorums by weight, Rules 1 to 4, and agreement of histories: definitions in specs/, laws in proofs/. This crate has no code.
#![tactic(auto)]
