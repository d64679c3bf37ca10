//! One region of memory cut into slots of one size, each of which is free or out.
#![tactic(auto)]

mod fault;
mod region;
mod rooms;
mod slot;
#[cfg(test)]
mod tests;

pub use fault::NoMemory;
pub use region::Region;
pub use slot::Slot;
