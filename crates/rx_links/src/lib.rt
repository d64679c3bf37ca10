//! The links of a message's text: their targets, whether they lead back, and how many there are.
#![tactic(auto)]

mod counts;
mod cycle;
mod law;
mod links;
mod names;
#[cfg(test)]
mod tests;

pub use counts::counts_stand;
pub use cycle::{clause_of, clauses_of, no_cycle};
pub use law::stands_without_cycle;
pub use links::{Stop, Way, links_of};
pub use names::positions;
