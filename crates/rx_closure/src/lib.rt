//! The packages that a command needs: the one that it asks for, and all that are named by `with`, from package to package.
#![tactic(auto)]

mod closure;
mod fault;
mod refusal;

pub use closure::{Packages, Stop, close};
pub use fault::NoMemory;
