// The mathematics of the two readings over an abstract operator T (specs/) and its laws (proofs/). This crate has no code and knows nothing of pages.
#![tactic(auto)]
