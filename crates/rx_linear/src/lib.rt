//! Rows over whole numbers, and steps from rows to rows that lose no integer point.
#![tactic(auto)]

mod buffer;
mod combining;
mod derivation;
mod fault;
mod holding;
mod row;
mod stack;
mod step;
mod system;
#[cfg(test)]
mod tests;
mod tightening;

pub use combining::combine;
pub use fault::NoMemory;
pub use holding::{holds_at, sum_of_products};
pub use row::Row;
pub use stack::RowStack;
pub use step::Step;
pub use system::System;
pub use tightening::{tighten, tightened};
