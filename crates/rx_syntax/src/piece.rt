//! The pieces of a text: tokens, white space and comments, each as long as can be.

ghost use Rattle.std.specs.Prelude.{◌≡◌, ℕ, ◌≤◌, ◌<◌, ◌++◌, ◌∷◌, [], length, take, drop, true, false, Some, None, IfOk, IfErr, IfSome, IfNone, List, ◌⊎◌};
ghost use Rattle.std.specs.List.{list_any, prefix_len};
ghost use Rattle.std.specs.Str.{bytes_eq};
ghost use Rattle.rx_syntax.specs.Bytes.{is_letter, is_digit, is_word_byte, is_number_byte, is_line_byte};
ghost use Rattle.rx_syntax.specs.Numbers.{begins_with, IsNumber};
ghost use Rattle.rx_syntax.specs.Marks.{marks, text_of, BeginsWithTwo};
ghost use Rattle.rx_syntax.specs.Text.{IsRun, begins_comment, IsLongest, IsPiece, IsBad};

use crate::class::{
    is_digit, is_letter, is_line_byte, is_name, is_number_byte, is_white, is_word_byte,
};
use crate::mark::{double_mark, single_mark};
use crate::number::number;
use crate::{LexFault, Mark, Place, TokenKind, Word};
use std::alloc::Global;

/// A piece of a text: its length, and its token unless it is white space or a comment.
#[derive(Debug, Drop)]
pub(crate) struct Piece {
    pub(crate) len: usize,
    pub(crate) token: Option<TokenKind>,
}

/// How many bytes at the front are of a word.
fn word_len(text: &[u8]) -> usize
    requires { length text.now ≤ 1048576 }
    ensures { result ≡ prefix_len is_word_byte text.now }
{
    text.iter().take_while(|byte| is_word_byte(**byte)).count()
}

/// How many bytes at the front are of a number.
fn number_len(text: &[u8]) -> usize
    requires { length text.now ≤ 1048576 }
    ensures { result ≡ prefix_len is_number_byte text.now }
{
    text.iter()
        .take_while(|byte| is_number_byte(**byte))
        .count()
}

/// How many bytes at the front stand before the end of the line.
fn line_len(text: &[u8]) -> usize
    requires { length text.now ≤ 1048576 }
    ensures { result ≡ prefix_len is_line_byte text.now }
{
    text.iter().take_while(|byte| is_line_byte(**byte)).count()
}

/// Whether the text begins with `--`.
fn begins_comment(text: &[u8]) -> bool
    ensures { result ≡ begins_comment text.now }
{
    match text {
        [first, second, ..] => *first == b'-' && *second == b'-',
        _ => false,
    }
}

/// The mark of two bytes with which a text begins, by its first byte and what stands behind it.
fn longer_mark(first: u8, tail: &[u8]) -> Option<Mark>
    ensures some { IfSome result (λ m. BeginsWithTwo m first tail.now) }
    ensures none { IfNone result ((b : ℕ) (rest : List ℕ) → tail.now ≡ b ∷ rest → list_any (λ m. bytes_eq (text_of m) (first ∷ b ∷ [])) marks ≡ false) }
{
    let (second, _) = tail.split_first()?;
    double_mark(first, *second)
}

/// The longest mark with which a text begins.
fn mark(text: &[u8]) -> Option<Mark>
    ensures some { IfSome result (λ m. (rest : List ℕ) × (text.now ≡ text_of m ++ rest) × IsLongest m rest) }
    ensures none { IfNone result ((m : Mark) (rest : List ℕ) → text.now ≡ text_of m ++ rest → ⊥) }
{
    let (first, tail) = text.split_first()?;
    if let Some(mark) = longer_mark(*first, tail) {
        return Some(mark);
    }
    single_mark(*first)
}

/// The word at the front of a text that begins with a letter.
fn word_piece(alloc: Global, text: &[u8], place: Place) -> Result<Piece, LexFault>
    requires letter { begins_with is_letter text.now ≡ true }
    requires limit { length text.now ≤ 1048576 }
    ensures piece { IfOk result (λ p. IsPiece (take p.len text.now) (drop p.len text.now) p.token) }
    ensures within { IfOk result (λ p. (0 < p.len) × (p.len ≤ length text.now)) }
    ensures fault { IfErr result (λ e. (e ≡ LexFault.NoMemory) ⊎ IsBad place text.now e) }
{
    let len = word_len(text);
    let run = &text[..len];
    if !is_name(run) {
        return Err(LexFault::BadName(place));
    }
    Ok(Piece {
        len,
        token: Some(TokenKind::Word(Word::from_bytes(alloc, run)?)),
    })
}

/// The number at the front of a text that begins with a digit.
fn number_piece(text: &[u8], place: Place) -> Result<Piece, LexFault>
    requires digit { begins_with is_digit text.now ≡ true }
    requires limit { length text.now ≤ 1048576 }
    ensures piece { IfOk result (λ p. IsPiece (take p.len text.now) (drop p.len text.now) p.token) }
    ensures within { IfOk result (λ p. (0 < p.len) × (p.len ≤ length text.now)) }
    ensures fault { IfErr result (λ e. IsBad place text.now e) }
{
    let len = number_len(text);
    let Some(number) = number(&text[..len]) else {
        return Err(LexFault::BadNumber(place));
    };
    Ok(Piece {
        len,
        token: Some(TokenKind::Number(number as i128)),
    })
}

/// The piece that begins a text, at this place.
pub(crate) fn first_piece(alloc: Global, text: &[u8], place: Place) -> Result<Piece, LexFault>
    requires some { 0 < length text.now }
    requires limit { length text.now ≤ 1048576 }
    ensures piece { IfOk result (λ p. IsPiece (take p.len text.now) (drop p.len text.now) p.token) }
    ensures within { IfOk result (λ p. (0 < p.len) × (p.len ≤ length text.now)) }
    ensures fault { IfErr result (λ e. (e ≡ LexFault.NoMemory) ⊎ IsBad place text.now e) }
{
    let first = text[0];
    if is_white(first) {
        return Ok(Piece {
            len: 1,
            token: None,
        });
    }
    if is_letter(first) {
        return word_piece(alloc, text, place);
    }
    if is_digit(first) {
        return number_piece(text, place);
    }
    if begins_comment(text) {
        return Ok(Piece {
            len: line_len(text),
            token: None,
        });
    }
    match mark(text) {
        Some(mark) => Ok(Piece {
            len: mark.text().len(),
            token: Some(TokenKind::Mark(mark)),
        }),
        None => Err(LexFault::BadByte(place)),
    }
}
