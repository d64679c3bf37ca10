//! Why a text is no valuation.

use std::alloc::{AllocError, AllocFailed};

/// Want of memory.
#[derive(Clone, Copy, Debug, PartialEq, Eq)]
pub struct NoMemory;

impl From<AllocError> for NoMemory {
    fn from(_: AllocError) -> Self {
        NoMemory
    }
}

impl<T: Drop> From<AllocFailed<T>> for NoMemory {
    fn from(_: AllocFailed<T>) -> Self {
        NoMemory
    }
}

/// Why a text is no valuation of a message. A member is told by the text of its key.
#[derive(Debug, Drop)]
pub enum ValueFault {
    /// The text is no JSON value, or its arrays and objects nest deeper than 127.
    NotJson,
    /// The value is no object.
    NotObject,
    /// No field has the name.
    UnknownField(Vec<u8>),
    /// The value is not allowed for the field.
    BadValue(Vec<u8>),
    /// An earlier member names the same field.
    Duplicate(Vec<u8>),
    NoMemory,
}

impl From<NoMemory> for ValueFault {
    ghost use Rattle.std.specs.Prelude.{◌≡◌};
    ghost use Rattle.rx_values.specs.declared.fault.ValueFault.TheVariants.{NoMemory};

    ghost from_gives = { λ _ e. e ≡ NoMemory };

    fn from(_: NoMemory) -> Self {
        ValueFault::NoMemory
    }
}
