#![tactic(auto)]

// The definitions of document 01 (specs/) and the laws about them (proofs/). This crate has no code; other crates use both.
