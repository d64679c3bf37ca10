//! The right to use one slot of a region.

ghost use Rattle.std.specs.Prelude.{◌≡◌};

use std::marker::Model;

/// The number of a slot that is out. It is moved and never copied, and only a region makes one.
/// A slot that is dropped stays out.
#[derive(Drop)]
pub struct Slot {
    number: usize,
}

impl Model for Slot {
    ghost use Rattle.std.specs.Prelude.{ℕ};

    ghost Value = { ℕ };

    ghost view = { λ slot. slot.number };
}

impl Slot {
    // The slot of a number.
    pub(crate) fn of(number: usize) -> Slot
        ensures { result ≡ number }
    {
        Slot { number }
    }

    // The number of the slot.
    pub(crate) fn number(&self) -> usize
        ensures { result ≡ self.now }
    {
        self.number
    }
}
