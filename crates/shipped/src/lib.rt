// Demand 3 of the calls that ship, by their own contracts: those of crate vault, and the exports of crate vault_c.
#![tactic(auto)]
