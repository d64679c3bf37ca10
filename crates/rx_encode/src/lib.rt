//! What a JSON text is of a message: its one buffer, or why it has none.
#![tactic(auto)]

mod encoding;
mod fault;
mod keys;
mod laws;
mod naming;

pub use encoding::{Encoded, encode};
pub use fault::NoMemory;
pub use keys::key_text;
pub use laws::{encoded_reads, one_text_answer, printed_is_encoded};
pub use naming::all_are_named;
