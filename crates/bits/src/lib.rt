// A number as its binary digits. This crate has definitions (specs/) and laws (proofs/), and no code.
#![tactic(auto)]
