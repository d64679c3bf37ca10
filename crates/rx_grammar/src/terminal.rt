//! What the grammar asks of one token.

ghost use Rattle.std.specs.Prelude.{◌≡◌};
ghost use Rattle.std.specs.Str.{bytes_eq};
ghost use Rattle.std.specs.List.{list_any};
ghost use Rattle.rx_grammar.specs.Terminal.{keyword_text, quoted_text, reserved, is_such, is_one_of};
ghost use Rattle.rx_grammar.specs.Grammar.{choice_of};
ghost use Rattle.rx_grammar.specs.First.{first_of};

use rx_syntax::{Mark, TokenKind, Word};

/// A reserved word.
#[derive(Clone, Copy, Debug, PartialEq, Eq)]
pub enum Keyword {
    And,
    Begin,
    End,
    Exception,
    For,
    Generic,
    Goto,
    If,
    Is,
    Machine,
    Message,
    Mod,
    New,
    Not,
    Null,
    Of,
    Or,
    Package,
    Range,
    Sequence,
    Session,
    State,
    Then,
    Transition,
    Type,
    Unsigned,
    Use,
    With,
}

/// A name that the grammar quotes.
#[derive(Clone, Copy, Debug, PartialEq, Eq)]
pub enum Quoted {
    Size,
    AlwaysValid,
    True,
    False,
    ByteOrder,
    HighOrderFirst,
    LowOrderFirst,
    First,
    Last,
    Valid,
    HasData,
    Opaque,
    Channel,
    Readable,
    Writable,
    Read,
    Write,
}

/// What a token may have to be.
#[derive(Clone, Copy, Debug, PartialEq, Eq)]
pub enum Terminal {
    Name,
    Number,
    Mark(Mark),
    Keyword(Keyword),
    Quoted(Quoted),
}

/// A choice of single tokens.
#[derive(Clone, Copy, Debug, PartialEq, Eq)]
pub enum Choice {
    Relation,
    Sign,
    Multiplying,
    Attribute,
    Order,
    Truth,
    Target,
    Aspect,
    Mode,
}

const RELATIONS: [Terminal; 6] = [
    Terminal::Mark(Mark::Equal),
    Terminal::Mark(Mark::NotEqual),
    Terminal::Mark(Mark::Less),
    Terminal::Mark(Mark::LessEqual),
    Terminal::Mark(Mark::Greater),
    Terminal::Mark(Mark::GreaterEqual),
];

const SIGNS: [Terminal; 2] = [Terminal::Mark(Mark::Plus), Terminal::Mark(Mark::Minus)];

const MULTIPLYING: [Terminal; 3] = [
    Terminal::Mark(Mark::Star),
    Terminal::Mark(Mark::Slash),
    Terminal::Keyword(Keyword::Mod),
];

const ATTRIBUTES: [Terminal; 6] = [
    Terminal::Quoted(Quoted::First),
    Terminal::Quoted(Quoted::Last),
    Terminal::Quoted(Quoted::Size),
    Terminal::Quoted(Quoted::Valid),
    Terminal::Quoted(Quoted::HasData),
    Terminal::Quoted(Quoted::Opaque),
];

const ORDERS: [Terminal; 2] = [
    Terminal::Quoted(Quoted::HighOrderFirst),
    Terminal::Quoted(Quoted::LowOrderFirst),
];

const TRUTHS: [Terminal; 2] = [
    Terminal::Quoted(Quoted::True),
    Terminal::Quoted(Quoted::False),
];

const TARGETS: [Terminal; 2] = [Terminal::Name, Terminal::Keyword(Keyword::Null)];

const ASPECTS: [Terminal; 2] = [
    Terminal::Quoted(Quoted::First),
    Terminal::Quoted(Quoted::Size),
];

const MODES: [Terminal; 2] = [
    Terminal::Quoted(Quoted::Readable),
    Terminal::Quoted(Quoted::Writable),
];

impl Keyword {
    /// How the word is written.
    pub fn text(self) -> &'static str
        ensures { result.now ≡ keyword_text self }
    {
        match self {
            Keyword::And => "and",
            Keyword::Begin => "begin",
            Keyword::End => "end",
            Keyword::Exception => "exception",
            Keyword::For => "for",
            Keyword::Generic => "generic",
            Keyword::Goto => "goto",
            Keyword::If => "if",
            Keyword::Is => "is",
            Keyword::Machine => "machine",
            Keyword::Message => "message",
            Keyword::Mod => "mod",
            Keyword::New => "new",
            Keyword::Not => "not",
            Keyword::Null => "null",
            Keyword::Of => "of",
            Keyword::Or => "or",
            Keyword::Package => "package",
            Keyword::Range => "range",
            Keyword::Sequence => "sequence",
            Keyword::Session => "session",
            Keyword::State => "state",
            Keyword::Then => "then",
            Keyword::Transition => "transition",
            Keyword::Type => "type",
            Keyword::Unsigned => "unsigned",
            Keyword::Use => "use",
            Keyword::With => "with",
        }
    }
}

impl Quoted {
    /// How the name is written in the grammar.
    pub fn text(self) -> &'static str
        ensures { result.now ≡ quoted_text self }
    {
        match self {
            Quoted::Size => "Size",
            Quoted::AlwaysValid => "Always_Valid",
            Quoted::True => "True",
            Quoted::False => "False",
            Quoted::ByteOrder => "Byte_Order",
            Quoted::HighOrderFirst => "High_Order_First",
            Quoted::LowOrderFirst => "Low_Order_First",
            Quoted::First => "First",
            Quoted::Last => "Last",
            Quoted::Valid => "Valid",
            Quoted::HasData => "Has_Data",
            Quoted::Opaque => "Opaque",
            Quoted::Channel => "Channel",
            Quoted::Readable => "Readable",
            Quoted::Writable => "Writable",
            Quoted::Read => "Read",
            Quoted::Write => "Write",
        }
    }
}

// Every reserved word.
const RESERVED: [&str; 28] = [
    "and",
    "begin",
    "end",
    "exception",
    "for",
    "generic",
    "goto",
    "if",
    "is",
    "machine",
    "message",
    "mod",
    "new",
    "not",
    "null",
    "of",
    "or",
    "package",
    "range",
    "sequence",
    "session",
    "state",
    "then",
    "transition",
    "type",
    "unsigned",
    "use",
    "with",
];

// Whether the word is written as one of these.
fn is_among(words: &[&str], word: &Word) -> bool
    ensures { result ≡ list_any (λ r. bytes_eq word.now r.now) words.now }
{
    words.iter().any(|reserved| word.is_written(reserved))
}

/// Whether a word is reserved.
pub(crate) fn is_reserved(word: &Word) -> bool
    ensures { result ≡ list_any (λ r. bytes_eq word.now r) reserved }
{
    is_among(&RESERVED, word)
}

/// Whether a token is such a one.
pub fn is_such(terminal: Terminal, kind: &TokenKind) -> bool
    ensures { result ≡ is_such terminal kind.now }
{
    match (terminal, kind) {
        (Terminal::Name, TokenKind::Word(word)) => !is_reserved(word),
        (Terminal::Number, TokenKind::Number(_)) => true,
        (Terminal::Mark(wanted), TokenKind::Mark(mark)) => mark.text() == wanted.text(),
        (Terminal::Keyword(wanted), TokenKind::Word(word)) => word.is_written(wanted.text()),
        (Terminal::Quoted(wanted), TokenKind::Word(word)) => word.is(wanted.text()),
        _ => false,
    }
}

/// Whether a token is one of a choice.
pub fn is_of(choice: Choice, kind: &TokenKind) -> bool
    ensures { result ≡ is_one_of (first_of (choice_of choice)) kind.now }
{
    match choice {
        Choice::Relation => is_any(&RELATIONS, kind),
        Choice::Sign => is_any(&SIGNS, kind),
        Choice::Multiplying => is_any(&MULTIPLYING, kind),
        Choice::Attribute => is_any(&ATTRIBUTES, kind),
        Choice::Order => is_any(&ORDERS, kind),
        Choice::Truth => is_any(&TRUTHS, kind),
        Choice::Target => is_any(&TARGETS, kind),
        Choice::Aspect => is_any(&ASPECTS, kind),
        Choice::Mode => is_any(&MODES, kind),
    }
}

/// Whether a token is one of these.
fn is_any(terminals: &[Terminal], kind: &TokenKind) -> bool
    ensures { result ≡ is_one_of terminals.now kind.now }
{
    for terminal in terminals {
        if is_such(*terminal, kind) {
            return true;
        }
    }
    false
}
