//! What a command answers, before it is printed.
use crate::fault::NoMemory;
use rx_report::Reported;
use rx_syntax::Refusal;
use rx_types::Name;

/// What a command answers.
#[derive(Debug, Drop)]
pub enum Answer {
    /// The words have no form.
    Usage,
    ShelfFault,
    /// The shelf has no text of this package.
    NoPackage(Name),
    /// The text of this package is too long.
    TextLimit(Name),
    /// The text of this package is refused: it has no tree or a form that is not served yet, or it breaks a rule.
    Refused(Name, Refusal),
    /// A 65th package is named.
    PackageLimit,
    /// The package has no message of the second name.
    NoMessage(Name, Name),
    /// The checks of all messages.
    Checked(Reported),
    /// The checks of the message that is asked for, some of which did not pass.
    Rejected(Reported),
    SourceFault,
    /// The input is longer than 16,777,215 bytes.
    InputLimit,
    /// What the input is where it is decoded, and the name of the field that this tells, if any.
    Decoded(rx_decode::Decoded, Option<Name>),
    /// What the input is where it is encoded, and the name of the field that this tells, if any.
    Encoded(rx_encode::Encoded, Option<Name>),
}

/// Why a command ends before it comes to its input.
#[derive(Debug, Drop)]
pub enum Early {
    /// This is its answer, whatever the input holds.
    Answer(Answer),
    NoMemory,
}

impl From<NoMemory> for Early {
    ghost use Rattle.std.specs.Prelude.{◌≡◌};
    ghost use Rattle.rx_program.specs.declared.answer.Early.TheVariants.{NoMemory};

    ghost from_gives = { λ _ e. e ≡ NoMemory };

    fn from(_: NoMemory) -> Early {
        Early::NoMemory
    }
}

impl From<rx_report::NoMemory> for Early {
    ghost use Rattle.std.specs.Prelude.{◌≡◌};
    ghost use Rattle.rx_program.specs.declared.answer.Early.TheVariants.{NoMemory};

    ghost from_gives = { λ _ e. e ≡ NoMemory };

    fn from(_: rx_report::NoMemory) -> Early {
        Early::NoMemory
    }
}
