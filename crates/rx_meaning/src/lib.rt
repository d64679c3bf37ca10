//! Packages mean the same whatever places in memory their trees have.
#![tactic(auto)]

mod law;

pub use law::one_meaning;
