// Why no plan was made.
use std::alloc::AllocFailed;

/// Want of memory.
#[derive(Clone, Copy, Debug, PartialEq, Eq)]
pub struct NoMemory;

impl<T: Drop> From<AllocFailed<T>> for NoMemory {
    fn from(_: AllocFailed<T>) -> Self {
        NoMemory
    }
}

impl From<rx_types::NoMemory> for NoMemory {
    fn from(_: rx_types::NoMemory) -> Self {
        NoMemory
    }
}

impl From<rx_graph::NoMemory> for NoMemory {
    fn from(_: rx_graph::NoMemory) -> Self {
        NoMemory
    }
}
