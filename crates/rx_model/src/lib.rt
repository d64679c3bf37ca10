//! The definitions and laws of bits and sums that several crates speak of, and no code that runs.
#![tactic(auto)]
