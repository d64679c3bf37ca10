//! Tokens and their places.

use crate::{Mark, Word};

/// A place in a text: the line and the column in bytes, both counted from 1.
#[derive(Clone, Copy, Debug, PartialEq, Eq)]
pub struct Place {
    pub line: u32,
    pub column: u32,
}

/// What a token is. A reserved word is a word.
#[derive(Debug, Drop)]
pub enum TokenKind {
    Word(Word),
    Number(i128),
    Mark(Mark),
}

/// A token, at the place of its first byte.
#[derive(Debug, Drop)]
pub struct Token {
    pub kind: TokenKind,
    pub place: Place,
}

/// The tokens of a text, and the place behind its last byte.
#[derive(Debug, Drop)]
pub struct Tokens {
    pub items: Vec<Token>,
    pub end: Place,
}
