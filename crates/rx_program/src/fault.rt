//! Want of memory.
use std::alloc::{AllocError, AllocFailed};

/// Want of memory.
#[derive(Clone, Copy, Debug, PartialEq, Eq)]
pub struct NoMemory;

impl From<AllocError> for NoMemory {
    fn from(_: AllocError) -> Self {
        NoMemory
    }
}

impl<T: Drop> From<AllocFailed<T>> for NoMemory {
    fn from(_: AllocFailed<T>) -> Self {
        NoMemory
    }
}

impl From<rx_syntax::NoMemory> for NoMemory {
    fn from(_: rx_syntax::NoMemory) -> Self {
        NoMemory
    }
}

impl From<rx_types::NoMemory> for NoMemory {
    fn from(_: rx_types::NoMemory) -> Self {
        NoMemory
    }
}

impl From<rx_context::NoMemory> for NoMemory {
    fn from(_: rx_context::NoMemory) -> Self {
        NoMemory
    }
}

impl From<rx_decode::NoMemory> for NoMemory {
    fn from(_: rx_decode::NoMemory) -> Self {
        NoMemory
    }
}

impl From<rx_report::NoMemory> for NoMemory {
    fn from(_: rx_report::NoMemory) -> Self {
        NoMemory
    }
}

impl From<rx_encode::NoMemory> for NoMemory {
    fn from(_: rx_encode::NoMemory) -> Self {
        NoMemory
    }
}

impl From<rx_lines::NoMemory> for NoMemory {
    fn from(_: rx_lines::NoMemory) -> Self {
        NoMemory
    }
}
