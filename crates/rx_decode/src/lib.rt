//! Decodes a buffer by the plan of a message: the JSON of the valuation that it reads as, or why no path fits.
#![tactic(auto)]

mod decoding;
mod fault;
mod gathering;
mod laws;

pub use decoding::{Decoded, decode};
pub use fault::NoMemory;
pub use laws::one_answer;
