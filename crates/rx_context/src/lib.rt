//! Decodes buffers: the fields of the one path that fits a buffer, or why none does.
#![tactic(auto)]

mod advance;
mod fault;
mod kept;
mod laws;
mod making;
mod plan;
mod slots;
mod step;
mod telling;
mod verified;
mod walk;

pub use advance::Taken;
pub use fault::NoMemory;
pub use laws::sound_messages_may_be_planned;
pub use plan::Plan;
pub use verified::{Opened, Refused, Verified};
