// What a rehearsal can show: definitions in specs/, the proof in proofs/. This crate has no code.
#![tactic(auto)]
