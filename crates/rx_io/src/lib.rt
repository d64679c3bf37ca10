//! The outside as the program sees it: a source of bytes, a sink for bytes, a shelf of texts, and objects in memory that are these.
#![tactic(auto)]

mod calls;
mod memory_shelf;
mod memory_sink;
mod memory_source;
mod no_memory;
mod reading;
mod shelf;
mod sink;
mod source;
#[cfg(test)]
mod tests;
mod writing;

pub use memory_shelf::MemoryShelf;
pub use memory_sink::MemorySink;
pub use memory_source::MemorySource;
pub use no_memory::NoMemory;
pub use reading::{ReadFault, read_all};
pub use shelf::{Fetched, Shelf, ShelfFault, TEXT_LIMIT};
pub use sink::Sink;
pub use source::{Failed, Source};
pub use writing::write_all;
