// The definitions of document 01 (specs/) and their laws (proofs/). This crate has no code: every contract of the crates above it cites it.
#![tactic(auto)]
