//! Marks: tokens of one or two bytes that are neither words nor numbers.

ghost use Rattle.std.specs.Prelude.{◌≡◌, [], ◌∷◌, IfSome, IfNone, false};
ghost use Rattle.std.specs.List.{list_any};
ghost use Rattle.std.specs.Str.{bytes_eq};
ghost use Rattle.rx_syntax.specs.Marks.{marks, text_of};

/// A mark.
#[derive(Clone, Copy, Debug, PartialEq, Eq)]
pub enum Mark {
    ParenLeft,
    ParenRight,
    BracketLeft,
    BracketRight,
    Comma,
    Semicolon,
    Colon,
    DoubleColon,
    Assign,
    Arrow,
    Equal,
    NotEqual,
    Slash,
    Less,
    LessEqual,
    Greater,
    GreaterEqual,
    Plus,
    Minus,
    Star,
    DoubleStar,
    Dot,
    DoubleDot,
    Tick,
}

impl Mark {
    /// How the mark is written.
    pub fn text(self) -> &'static str
        ensures { result.now ≡ text_of self }
    {
        match self {
            Mark::ParenLeft => "(",
            Mark::ParenRight => ")",
            Mark::BracketLeft => "[",
            Mark::BracketRight => "]",
            Mark::Comma => ",",
            Mark::Semicolon => ";",
            Mark::Colon => ":",
            Mark::DoubleColon => "::",
            Mark::Assign => ":=",
            Mark::Arrow => "=>",
            Mark::Equal => "=",
            Mark::NotEqual => "/=",
            Mark::Slash => "/",
            Mark::Less => "<",
            Mark::LessEqual => "<=",
            Mark::Greater => ">",
            Mark::GreaterEqual => ">=",
            Mark::Plus => "+",
            Mark::Minus => "-",
            Mark::Star => "*",
            Mark::DoubleStar => "**",
            Mark::Dot => ".",
            Mark::DoubleDot => "..",
            Mark::Tick => "'",
        }
    }
}

/// The mark of two bytes.
pub(crate) fn double_mark(first: u8, second: u8) -> Option<Mark>
    ensures some { IfSome result (λ mark. text_of mark ≡ first ∷ second ∷ []) }
    ensures none { IfNone result (list_any (λ m. bytes_eq (text_of m) (first ∷ second ∷ [])) marks ≡ false) }
{
    match (first, second) {
        (b':', b':') => Some(Mark::DoubleColon),
        (b':', b'=') => Some(Mark::Assign),
        (b'=', b'>') => Some(Mark::Arrow),
        (b'/', b'=') => Some(Mark::NotEqual),
        (b'<', b'=') => Some(Mark::LessEqual),
        (b'>', b'=') => Some(Mark::GreaterEqual),
        (b'*', b'*') => Some(Mark::DoubleStar),
        (b'.', b'.') => Some(Mark::DoubleDot),
        _ => None,
    }
}

/// The mark of one byte.
pub(crate) fn single_mark(byte: u8) -> Option<Mark>
    ensures some { IfSome result (λ mark. text_of mark ≡ byte ∷ []) }
    ensures none { IfNone result (list_any (λ m. bytes_eq (text_of m) (byte ∷ [])) marks ≡ false) }
{
    match byte {
        b'(' => Some(Mark::ParenLeft),
        b')' => Some(Mark::ParenRight),
        b'[' => Some(Mark::BracketLeft),
        b']' => Some(Mark::BracketRight),
        b',' => Some(Mark::Comma),
        b';' => Some(Mark::Semicolon),
        b':' => Some(Mark::Colon),
        b'=' => Some(Mark::Equal),
        b'/' => Some(Mark::Slash),
        b'<' => Some(Mark::Less),
        b'>' => Some(Mark::Greater),
        b'+' => Some(Mark::Plus),
        b'-' => Some(Mark::Minus),
        b'*' => Some(Mark::Star),
        b'.' => Some(Mark::Dot),
        b'\'' => Some(Mark::Tick),
        _ => None,
    }
}
