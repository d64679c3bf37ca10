//! The specification of a closure of packages: its scalar types and its messages, or the refusal that comes first.
#![tactic(auto)]

mod arrows;
mod body;
mod counting;
mod elaboration;
mod fault;
mod fields;
mod limit;
mod messages;
mod operators;
mod packages;
mod shape;
mod sizes;
mod ways;

pub use elaboration::elaborate;
pub use fault::ElabFault;
