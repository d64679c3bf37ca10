//! Reads and writes the numbers of ranges of bits.
#![tactic(auto)]

mod reading;
mod writing;

pub use reading::get;
pub use writing::put;
