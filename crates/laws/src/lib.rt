// The laws of the bench are in specs/; this crate has no code.
#![tactic(auto)]
