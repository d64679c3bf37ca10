//! The search for a point of a query, or for a proof that it has none, with a budget.
#![tactic(auto)]

mod answer;
mod fault;
mod pending;
mod proving;
mod splits;
mod tree;
mod walked;
mod walking;

pub use answer::Answer;
pub use fault::NoMemory;
pub use proving::prove;
pub use splits::Splits;
pub use tree::OpenTree;

#[cfg(test)]
mod tests;
