//! The top call: which bytes and which status answer the words of a command.
#![tactic(auto)]

mod adapters;
mod answer;
mod fault;
mod inputs;
pub mod laws;
mod operand;
mod print;
mod serving;
mod stage;
mod status;
mod top;
mod words;

pub use adapters::{FolderShelf, StdSink, StdSource};
pub use status::Status;
pub use top::run;
