//! The words of a command, and what they ask for.
#![tactic(auto)]

mod fault;
mod line;
mod names;
mod numbers;
mod request;
#[cfg(test)]
mod tests;

pub use fault::WordsFault;
pub use names::is_name;
pub use request::{Command, Request, read_words};
