//! Systems of rows that are decided by elimination of exact variables.
#![tactic(auto)]

mod bounds;
mod eliminating;
mod exact;
mod fault;
mod joined;
mod known;
mod laws;
mod marked;
mod placing;
mod rows;
mod solving;

pub use fault::NoMemory;
pub use joined::JoinedRows;
pub use laws::{elimination_is_a_recursion, elimination_keeps_the_points};
pub use solving::{Solved, is_bounded, solve};

#[cfg(test)]
mod tests;
