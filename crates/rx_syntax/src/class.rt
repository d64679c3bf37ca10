//! Classes of bytes, and the form of names.

ghost use Rattle.std.specs.Prelude.{◌≡◌};
ghost use Rattle.rx_syntax.specs.Bytes.{is_white, is_letter, is_digit, is_word_byte, is_number_byte, is_line_byte, is_well_joined, is_name};

pub(crate) fn is_white(byte: u8) -> bool
    ensures { result ≡ is_white byte }
{
    byte == 9 || byte == 10 || byte == 13 || byte == 32
}

pub fn is_letter(byte: u8) -> bool
    ensures { result ≡ is_letter byte }
{
    (byte >= 65 && byte <= 90) || (byte >= 97 && byte <= 122)
}

pub fn is_digit(byte: u8) -> bool
    ensures { result ≡ is_digit byte }
{
    byte >= 48 && byte <= 57
}

/// Whether the byte is a letter, a digit or `_`.
pub fn is_word_byte(byte: u8) -> bool
    ensures { result ≡ is_word_byte byte }
{
    is_letter(byte) || is_digit(byte) || byte == 95
}

/// Whether the byte is of a word or `#`.
pub(crate) fn is_number_byte(byte: u8) -> bool
    ensures { result ≡ is_number_byte byte }
{
    is_word_byte(byte) || byte == 35
}

/// Whether the byte doesn't end the line.
pub(crate) fn is_line_byte(byte: u8) -> bool
    ensures { result ≡ is_line_byte byte }
{
    byte != 10
}

/// Whether no `_` stands beside another or at the end.
pub(crate) fn is_well_joined(word: &[u8]) -> bool
    ensures { result ≡ is_well_joined word.now }
{
    let mut rest = word;
    while let [first, tail @ ..] = rest {
        if *first == 95 {
            match tail {
                [] => return false,
                [next, ..] => {
                    if *next == 95 {
                        return false;
                    }
                }
            }
        }
        rest = tail;
    }
    true
}

/// Whether a run of letters, digits and `_` is a name: at most 128 bytes, and no `_` beside another or at the end.
pub fn is_name(run: &[u8]) -> bool
    ensures { result ≡ is_name run.now }
{
    run.len() <= 128 && is_well_joined(run)
}
