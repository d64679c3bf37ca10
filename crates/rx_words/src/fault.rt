//! Why words ask for nothing.

use std::alloc::AllocError;

/// Why no request was read.
#[derive(Clone, Copy, Debug, Drop, PartialEq, Eq)]
pub enum WordsFault {
    /// The words have no command's form.
    Form,
    NoMemory,
}

impl From<AllocError> for WordsFault {
    ghost use Rattle.std.specs.Prelude.{◌≡◌};
    ghost use Rattle.rx_words.specs.declared.fault.WordsFault.TheVariants.{NoMemory};

    ghost from_gives = { λ _ e. e ≡ NoMemory };

    fn from(_error: AllocError) -> WordsFault {
        WordsFault::NoMemory
    }
}
