//! Why packages have no meaning, and where.

ghost use Rattle.std.specs.Prelude.{◌≡◌};
ghost use Rattle.rx_spec.specs.Kept.{fault_in};

use rx_judge::{Fault, NoMemory};
use rx_syntax::Refusal;

/// Why there is no specification.
#[derive(Debug, Drop)]
pub enum ElabFault {
    /// A rule is broken in the text of a package, which is given by its place in the closure.
    Refused { package: usize, refusal: Refusal },
    NoMemory,
}

impl From<NoMemory> for ElabFault {
    ghost use Rattle.std.specs.Prelude.{◌≡◌};
    ghost use Rattle.rx_spec.specs.declared.fault.ElabFault.TheVariants.{NoMemory};

    ghost from_gives = { λ _ e. e ≡ NoMemory };

    fn from(_: NoMemory) -> Self {
        ElabFault::NoMemory
    }
}

/// The fault of what stands in a package.
pub(crate) fn fault_in(package: usize, fault: Fault) -> ElabFault
    ensures { result ≡ fault_in «package» fault }
{
    match fault {
        Fault::Refused(refusal) => ElabFault::Refused { package, refusal },
        Fault::NoMemory => ElabFault::NoMemory,
    }
}
