//! Shelves: where the texts of packages lie.

ghost use Rattle.std.specs.Prelude.{◌≡◌, ℕ, ◌≤◌, List, [], Option, IfOk, IfSome, OnErr, IsErrOf};
ghost use Rattle.rx_io.specs.Faults.{HasRisen};

use std::alloc::Global;

/// The greatest length of a text.
pub const TEXT_LIMIT: usize = 1_048_576;

/// What a fetch found.
#[derive(Clone, Copy, Debug, PartialEq, Eq)]
pub enum Fetched {
    Text,
    Absent,
    TooLong,
}

/// Why a fetch found out nothing.
#[derive(Clone, Copy, Debug, PartialEq, Eq)]
pub enum ShelfFault {
    Failed,
    NoMemory,
}

/// Where the texts of packages lie.
pub trait Shelf {
    ghost use Rattle.rx_io.specs.Shelf.{Texts, text_of, Finds, IsWithin, SameTexts};

    /// The texts by their names, where the shelf tells them.
    ghost texts: { Self → Option Texts };

    /// How often a fetch has failed.
    ghost faults: { Self → ℕ };

    /// Looks for the text of a package, whose name is in lower case. `into` holds that text after Text,
    /// which has at most `TEXT_LIMIT` bytes, and is empty after every other answer.
    fn fetch(
        &mut self,
        alloc: Global,
        name: &str,
        into: &mut Vec<u8>,
    ) -> Result<Fetched, ShelfFault>
        ensures found { IfOk result (λ fetched. IfSome (texts self.old) (λ told. Finds (text_of name.now told) fetched into.new.items)) }
        ensures within { IfOk result (λ fetched. IsWithin fetched into.new.items) }
        ensures failed { OnErr result (into.new.items ≡ []) }
        ensures same { SameTexts (texts self.old) (texts self.new) }
        ensures never_falls { faults self.old ≤ faults self.new }
        ensures cause { IsErrOf result ShelfFault.Failed → HasRisen (faults self.old) (faults self.new) };
}
