//! Why a tree has no meaning.

ghost use Rattle.std.specs.Prelude.{◌≡◌, IfOk};

use rx_syntax::{Named, Place, Refusal, Rule, Word};
use std::alloc::{AllocError, AllocFailed, Global};

/// Want of memory.
#[derive(Clone, Copy, Debug, PartialEq, Eq)]
pub struct NoMemory;

/// Why there is no meaning.
#[derive(Debug, Drop)]
pub enum Fault {
    /// A rule is broken.
    Refused(Refusal),
    NoMemory,
}

impl From<AllocError> for NoMemory {
    fn from(_: AllocError) -> Self {
        NoMemory
    }
}

impl<T: Drop> From<AllocFailed<T>> for NoMemory {
    fn from(_: AllocFailed<T>) -> Self {
        NoMemory
    }
}

impl From<rx_syntax::NoMemory> for NoMemory {
    fn from(_: rx_syntax::NoMemory) -> Self {
        NoMemory
    }
}

impl From<rx_types::NoMemory> for NoMemory {
    fn from(_: rx_types::NoMemory) -> Self {
        NoMemory
    }
}

impl From<NoMemory> for Fault {
    ghost use Rattle.std.specs.Prelude.{◌≡◌};
    ghost use Rattle.rx_judge.specs.declared.fault.Fault.TheVariants.{NoMemory};

    ghost from_gives = { λ _ e. e ≡ NoMemory };

    fn from(_: NoMemory) -> Self {
        Fault::NoMemory
    }
}

impl From<rx_types::NoMemory> for Fault {
    ghost use Rattle.std.specs.Prelude.{◌≡◌};
    ghost use Rattle.rx_judge.specs.declared.fault.Fault.TheVariants.{NoMemory};

    ghost from_gives = { λ _ e. e ≡ NoMemory };

    fn from(_: rx_types::NoMemory) -> Self {
        Fault::NoMemory
    }
}

impl<T: Drop> From<AllocFailed<T>> for Fault {
    ghost use Rattle.std.specs.Prelude.{◌≡◌};
    ghost use Rattle.rx_judge.specs.declared.fault.Fault.TheVariants.{NoMemory};

    ghost from_gives = { λ _ e. e ≡ NoMemory };

    fn from(_: AllocFailed<T>) -> Self {
        Fault::NoMemory
    }
}

/// A refusal at a place, which tells the name of what stands around it.
pub fn refused(alloc: Global, rule: Rule, place: Place, owner: &Word) -> Result<Refusal, NoMemory>
    ensures { IfOk result (λ r. r ≡ record { rule = rule; place = place; word = Some owner.now }) }
{
    let word = owner.copy(alloc)?;
    Ok(Refusal {
        rule,
        place,
        word: Some(word),
    })
}

/// A refusal at a name.
pub fn refused_at(alloc: Global, rule: Rule, name: &Named) -> Result<Refusal, NoMemory>
    ensures { IfOk result (λ r. r ≡ record { rule = rule; place = name.now.place; word = Some name.now.word }) }
{
    refused(alloc, rule, name.place, &name.word)
}
