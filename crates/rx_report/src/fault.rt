//! Why a call gave no report.

use std::alloc::{AllocError, AllocFailed};

/// Want of memory.
#[derive(Clone, Copy, Debug, PartialEq, Eq)]
pub struct NoMemory;

impl From<AllocError> for NoMemory {
    fn from(_: AllocError) -> Self {
        NoMemory
    }
}

impl<T: Drop> From<AllocFailed<T>> for NoMemory {
    fn from(_: AllocFailed<T>) -> Self {
        NoMemory
    }
}

impl From<rx_checks::NoMemory> for NoMemory {
    fn from(_: rx_checks::NoMemory) -> Self {
        NoMemory
    }
}

impl From<rx_lines::NoMemory> for NoMemory {
    fn from(_: rx_lines::NoMemory) -> Self {
        NoMemory
    }
}
