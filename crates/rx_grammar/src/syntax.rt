//! The faults of a list of tokens, with their places.

ghost use Rattle.std.specs.Prelude.{◌≡◌, ◌-◌, ◌≤◌, length, take, drop, codes, IfOk, IfErr, ◌⊎◌};
ghost use Rattle.rx_grammar.specs.Syntax.{place_of, is_unsupported, is_type_name, unsupported_at, IsToldAt};

use crate::terminal::{Keyword, Terminal, is_such};
use rx_syntax::{Mark, NoMemory, Place, Token, TokenKind, Word};
use std::alloc::Global;

/// Why tokens are no sentence.
#[derive(Debug, Drop)]
pub enum SyntaxFault {
    /// No sentence goes on with the token at the place, or ends there.
    Expected(Place),
    /// The 65th open bracket, or the 257th operator of an expression.
    TooDeep(Place),
    /// As Expected, at a word of a form that is not supported.
    Unsupported(Place, Word),
    NoMemory,
}

/// The place of the first token, or the end.
pub(crate) fn place_of(tokens: &[Token], end: Place) -> Place
    ensures { result ≡ place_of tokens.now end }
{
    match tokens.split_first() {
        None => end,
        Some((token, _)) => token.place,
    }
}

/// Whether the word is one of a form that is not supported; without machines there are two more.
fn is_unsupported(word: &Word, plain: bool) -> bool
    ensures { result ≡ is_unsupported plain word.now }
{
    if word.is("Checksum")
        || word.is("Valid_Checksum")
        || word.is("Head")
        || word.is("function")
        || word.is("renames")
        || word.is("all")
        || word.is("some")
        || word.is("case")
        || word.is("when")
        || word.is("mod")
        || word.is("session")
    {
        return true;
    }
    plain && (word.is("machine") || word.is("generic"))
}

/// Whether the first two tokens are `type` and a name.
fn is_type_name(tokens: &[Token]) -> bool
    ensures { result ≡ is_type_name tokens.now }
{
    let Some((first, rest)) = tokens.split_first() else {
        return false;
    };
    match rest.split_first() {
        None => false,
        Some((second, _)) => {
            is_such(Terminal::Keyword(Keyword::Type), &first.kind)
                && is_such(Terminal::Name, &second.kind)
        }
    }
}

/// The text "parameters" as a word.
fn parameters(alloc: Global) -> Result<Word, NoMemory>
    ensures { IfOk result (λ w. w ≡ codes "parameters") }
{
    Word::make(alloc, "parameters")
}

/// What is not supported at the stop.
fn unsupported_at(
    alloc: Global,
    front: &[Token],
    stop: &[Token],
    plain: bool,
) -> Result<Option<Word>, NoMemory>
    ensures { IfOk result (λ w. w ≡ unsupported_at plain front.now stop.now) }
{
    let Some((token, _)) = stop.split_first() else {
        return Ok(None);
    };
    match &token.kind {
        TokenKind::Word(word) => {
            if !is_unsupported(word, plain) {
                return Ok(None);
            }
            let copy = word.copy(alloc)?;
            Ok(Some(copy))
        }
        TokenKind::Mark(Mark::ParenLeft) => {
            let (_, last) = front.split_at(front.len().saturating_sub(2));
            if !is_type_name(last) {
                return Ok(None);
            }
            let word = parameters(alloc)?;
            Ok(Some(word))
        }
        _ => Ok(None),
    }
}

/// The fault that is told where so many tokens are left.
pub(crate) fn told_at(
    alloc: Global,
    tokens: &[Token],
    end: Place,
    left: usize,
    plain: bool,
) -> SyntaxFault
    requires { left ≤ length tokens.now }
    ensures { (result ≡ SyntaxFault.NoMemory) ⊎ IsToldAt plain (take (length tokens.now - left) tokens.now) (drop (length tokens.now - left) tokens.now) end result }
{
    let (front, stop) = tokens.split_at(tokens.len() - left);
    match unsupported_at(alloc, front, stop, plain) {
        Ok(None) => SyntaxFault::Expected(place_of(stop, end)),
        Ok(Some(word)) => SyntaxFault::Unsupported(place_of(stop, end), word),
        Err(_) => SyntaxFault::NoMemory,
    }
}
