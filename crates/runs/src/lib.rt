// Runs over bytes and demand 3: definitions in specs/, the proof in proofs/. This crate has no code.
#![tactic(auto)]
