//! Names, and pairs of names with two colons between them.

ghost use Rattle.std.specs.Prelude.{◌≡◌, option_map};
ghost use Rattle.std.specs.List.{list_all, list_any};
ghost use Rattle.std.specs.Str.{bytes_eq};
ghost use Rattle.rx_syntax.specs.Bytes.{is_word_byte};
ghost use Rattle.rx_words.specs.Names.{is_name, is_reserved, is_word, named, pair_in};

use rx_syntax::{is_letter, is_word_byte};

/// The words that the language keeps for itself; one with a capital letter is a name.
pub const RESERVED: [&str; 28] = [
    "and",
    "begin",
    "end",
    "exception",
    "for",
    "generic",
    "goto",
    "if",
    "is",
    "machine",
    "message",
    "mod",
    "new",
    "not",
    "null",
    "of",
    "or",
    "package",
    "range",
    "sequence",
    "session",
    "state",
    "then",
    "transition",
    "type",
    "unsigned",
    "use",
    "with",
];

// Whether all bytes are of words.
fn are_word_bytes(bytes: &[u8]) -> bool
    ensures { result ≡ list_all is_word_byte bytes.now }
{
    bytes.iter().all(|byte| is_word_byte(*byte))
}

// Whether the bytes are those of a word.
fn is_word(bytes: &[u8]) -> bool
    ensures { result ≡ is_word bytes.now }
{
    match bytes {
        [] => false,
        [first, rest @ ..] => {
            let begins = is_letter(*first);
            let goes_on = are_word_bytes(rest);
            let joined = rx_syntax::is_name(bytes);
            begins && goes_on && joined
        }
    }
}

// Whether the word is one of these.
fn is_among(words: &[&str], word: &[u8]) -> bool
    ensures { result ≡ list_any (λ other. bytes_eq other.now word.now) words.now }
{
    words.iter().any(|other| other.as_bytes() == word)
}

// Whether the word is one that the language keeps for itself.
fn is_reserved(word: &[u8]) -> bool
    ensures { result ≡ is_reserved word.now }
{
    is_among(&RESERVED, word)
}

/// Whether the bytes are those of a name: a letter, then letters, digits and single `_`, at most
/// 128 bytes, and no reserved word.
pub fn is_name(bytes: &[u8]) -> bool
    ensures { result ≡ is_name bytes.now }
{
    let word = is_word(bytes);
    let reserved = is_reserved(bytes);
    word && !reserved
}

/// The text, if it is a name.
pub(crate) fn named<'a>(text: &'a str) -> Option<&'a str>
    ensures { option_map (λ s. s.now) result ≡ named text.entry.now }
{
    if is_name(text.as_bytes()) {
        Some(text)
    } else {
        None
    }
}

/// The two names of a text such as `P::M`.
pub(crate) fn pair_in<'a>(text: &'a str) -> Option<(&'a str, &'a str)>
    ensures { option_map (λ p. (p.0.now, p.1.now)) result ≡ pair_in text.entry.now }
{
    let (front, rest) = text.split_once(':')?;
    let back = rest.strip_prefix(':')?;
    let named = is_name(front.as_bytes()) && is_name(back.as_bytes());
    if named { Some((front, back)) } else { None }
}
