// The claims of the project, as types in specs/ and with their proofs in proofs/. This crate has no code, and nothing stands on it.
#![tactic(auto)]
