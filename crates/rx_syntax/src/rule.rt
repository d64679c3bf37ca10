//! The rules that a text may break, and the refusal of a text that breaks one.

ghost use Rattle.std.specs.Prelude.{◌≡◌};
ghost use Rattle.rx_syntax.specs.Rules.{number_of, name_of};

use crate::token::Place;
use crate::word::Word;

/// A rule of texts and of what they mean.
#[derive(Clone, Copy, Debug, PartialEq, Eq)]
pub enum Rule {
    /// A byte begins no token, white space or comment.
    BadByte,
    /// A run that begins with a digit is no number up to 2^127 - 1.
    BadNumber,
    /// A word has more than 128 bytes, two `_` side by side, or one at its end.
    BadName,
    /// There are more than 262,144 tokens.
    TextLimit,
    /// The token continues no package.
    Expected,
    /// More than 64 brackets are open, or an expression has more than 256 operators.
    TooDeep,
    /// The word begins a form that is not supported.
    Unsupported,
    /// The name means nothing.
    UnknownName,
    /// The name or aspect is declared a second time.
    NameClash,
    /// An operand, a field, an element, a derivation or a refinement is of the wrong kind.
    WrongType,
    /// A name stands where only numbers may.
    NotStatic,
    /// A product has no static side, a division no positive static divisor, or a power a part that is not static.
    NotLinear,
    /// A value, a coefficient or a divisor passes its limit.
    TooWide,
    /// An enumeration, or a field of bytes that is not the rest of its message, has no Size.
    MissingSize,
    /// A link leads back to its source, or a derivation to itself.
    Cycle,
    /// Some links lay the field over another one, and some do not.
    OverlayMixed,
    /// A First is neither another field's nor behind another field's Last.
    FirstForm,
    /// A scalar of a message in low order has more than eight bits, and no whole bytes.
    OrderSize,
    /// A scalar type has no numbers, too many bits, or one number twice.
    BadRange,
    /// A message has too many fields, links or paths, or a path is too long to be checked.
    GraphLimit,
}

impl Rule {
    /// The number by which it is told; none has 15.
    pub fn number(self) -> u8
        ensures { result ≡ number_of self }
    {
        match self {
            Rule::BadByte => 1,
            Rule::BadNumber => 2,
            Rule::BadName => 3,
            Rule::TextLimit => 4,
            Rule::Expected => 5,
            Rule::TooDeep => 6,
            Rule::Unsupported => 7,
            Rule::UnknownName => 8,
            Rule::NameClash => 9,
            Rule::WrongType => 10,
            Rule::NotStatic => 11,
            Rule::NotLinear => 12,
            Rule::TooWide => 13,
            Rule::MissingSize => 14,
            Rule::Cycle => 16,
            Rule::OverlayMixed => 17,
            Rule::FirstForm => 18,
            Rule::OrderSize => 19,
            Rule::BadRange => 20,
            Rule::GraphLimit => 21,
        }
    }

    /// The name by which it is told.
    pub fn name(self) -> &'static str
        ensures { result.now ≡ name_of self }
    {
        match self {
            Rule::BadByte => "BadByte",
            Rule::BadNumber => "BadNumber",
            Rule::BadName => "BadName",
            Rule::TextLimit => "TextLimit",
            Rule::Expected => "Expected",
            Rule::TooDeep => "TooDeep",
            Rule::Unsupported => "Unsupported",
            Rule::UnknownName => "UnknownName",
            Rule::NameClash => "NameClash",
            Rule::WrongType => "WrongType",
            Rule::NotStatic => "NotStatic",
            Rule::NotLinear => "NotLinear",
            Rule::TooWide => "TooWide",
            Rule::MissingSize => "MissingSize",
            Rule::Cycle => "Cycle",
            Rule::OverlayMixed => "OverlayMixed",
            Rule::FirstForm => "FirstForm",
            Rule::OrderSize => "OrderSize",
            Rule::BadRange => "BadRange",
            Rule::GraphLimit => "GraphLimit",
        }
    }
}

/// A rule that a text breaks: where it does, and the word that is told with it, if there is one.
#[derive(Debug, Drop)]
pub struct Refusal {
    pub rule: Rule,
    pub place: Place,
    pub word: Option<Word>,
}
