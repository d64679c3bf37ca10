//! Trees of one text: they differ in nothing but the places of their vectors and boxes in memory.
#![tactic(auto)]

mod law;

pub use law::one_tree;
