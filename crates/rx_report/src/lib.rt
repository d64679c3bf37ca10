//! Reports of messages as text: a line for each check, and how many passed.
#![tactic(auto)]

mod fault;
mod laws;
mod lines;
mod reported;
mod reporting;

pub use fault::NoMemory;
pub use laws::counts_tell_soundness;
pub use reported::{Examined, Reported};
pub use reporting::{examine, report_package};
