//! Queries, proofs that they have no point, and the check of such proofs, which searches nothing.
#![tactic(auto)]

mod accepting;
mod desk;
mod open;
mod proof;
mod query;
#[cfg(test)]
mod tests;

pub use accepting::accepts;
pub use desk::{Desk, NoMemory};
pub use proof::Proof;
pub use query::Query;
