//! Values of fields, and valuations as JSON, both ways.
#![tactic(auto)]

mod fault;
mod fields;
mod laws;
mod printing;
mod reading;
#[cfg(test)]
mod tests;
mod valuation;

pub use fault::{NoMemory, ValueFault};
pub use laws::printed_reads_back;
pub use printing::{json_of, to_json};
pub use reading::{from_json, valuation_of};
pub use valuation::{Valuation, Value};
