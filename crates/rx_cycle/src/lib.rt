//! Finds the first link of a graph, in order, that lies on a cycle.
#![tactic(auto)]

mod ends;
mod fault;
mod first;
mod law;
mod rank;
mod reach;
#[cfg(test)]
mod tests;
mod ways;

pub use ends::Ends;
pub use fault::NoMemory;
pub use first::first_to_return;
pub use law::first_is_told;
