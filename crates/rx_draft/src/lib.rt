//! Messages that are written field by field into a buffer.
#![tactic(auto)]

mod draft;
mod fault;
mod putting;
mod sealed;
mod stepping;
mod writing;

pub use draft::Draft;
pub use fault::PutFault;
pub use sealed::Sealed;
