//! Writes valuations: the one buffer that reads as a valuation, or why there is none.
#![tactic(auto)]

mod fault;
mod filling;
mod laws;
mod limiting;
mod measuring;
mod writing;

pub use fault::{Unfit, UnfitReason, WriteFault};
pub use laws::{
    unfit_valuations_fit_no_path, unfit_valuations_have_one_refusal, valuations_have_one_buffer,
};
pub use limiting::is_within;
pub use measuring::room;
pub use writing::write;
