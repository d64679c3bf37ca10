//! Why a text has no tokens.

ghost use Rattle.std.specs.Prelude.{◌≡◌};
ghost use Rattle.rx_syntax.specs.declared.fault.LexFault.TheVariants.{NoMemory};

use crate::{NoMemory, Place};

/// The first fault of a text.
#[derive(Clone, Copy, Debug, PartialEq, Eq)]
pub enum LexFault {
    /// A byte that begins no token, white space or comment.
    BadByte(Place),
    /// A run that begins with a digit and is no number up to 2^127 - 1.
    BadNumber(Place),
    /// A word of more than 128 bytes, with two `_` side by side or with one at its end.
    BadName(Place),
    /// The 262,145th token.
    TextLimit(Place),
    NoMemory,
}

impl From<NoMemory> for LexFault {
    ghost from_gives = { λ _ e. e ≡ NoMemory };

    fn from(_: NoMemory) -> Self {
        LexFault::NoMemory
    }
}
