//! The lexer: cuts a text into pieces from the front, and keeps the tokens with their places. It goes over the text once.

ghost use Rattle.std.specs.Prelude.{◌≡◌, ◌+◌, ◌≤◌, ◌<◌, ◌++◌, ◌∷◌, [], length, OnOk, IfOk, IfErr, ◌⊎◌};
ghost use Rattle.rx_syntax.specs.Text.{place_after, tokens_of, token_limit, AreTokens, IsFault, IsTooMany};

use crate::piece::first_piece;
use crate::{LexFault, NoMemory, Place, Token, TokenKind, Tokens};
use std::alloc::Global;

/// How many tokens a text may have.
const TOKEN_LIMIT: usize = 262144;

/// The place behind some bytes.
fn place_after(place: Place, bytes: &[u8]) -> Place
    requires line { place.line + length bytes.now < 4294967296 }
    requires column { place.column + length bytes.now < 4294967295 }
    ensures { result ≡ place_after place bytes.now }
{
    let mut place = place;
    for byte in bytes {
        place = if *byte == 10 {
            Place {
                line: place.line + 1,
                column: 1,
            }
        } else {
            Place {
                line: place.line,
                column: place.column + 1,
            }
        };
    }
    place
}

/// Adds a token at the end.
fn push(items: &mut Vec<Token>, token: Token) -> Result<(), NoMemory>
    ensures { OnOk result (items.new.items ≡ items.old.items ++ token ∷ []) }
{
    items.push(token)?;
    Ok(())
}

/// Adds the token of a piece, if it is one and there is room for it.
fn push_token(
    items: &mut Vec<Token>,
    token: Option<TokenKind>,
    place: Place,
) -> Result<(), LexFault>
    requires { length items.old.items ≤ token_limit }
    ensures tokens { OnOk result (items.new.items ≡ items.old.items ++ tokens_of place token) }
    ensures few { OnOk result (length items.new.items ≤ token_limit) }
    ensures fault { IfErr result (λ e. (e ≡ LexFault.NoMemory) ⊎ IsTooMany items.old.items token place e) }
{
    let Some(kind) = token else {
        return Ok(());
    };
    if items.len() == TOKEN_LIMIT {
        return Err(LexFault::TextLimit(place));
    }
    push(items, Token { kind, place })?;
    Ok(())
}

/// The tokens of a text of at most 1,048,576 bytes, or its first fault.
///
/// `Range 16#F#` has a word and a number; `range 16#G#` has BadNumber at line 1, column 7.
pub fn lex(alloc: Global, text: &[u8]) -> Result<Tokens, LexFault>
    requires { length text.now ≤ 1048576 }
    ensures tokens { IfOk result (λ tokens. AreTokens text.now tokens.items.items tokens.end) }
    ensures fault { IfErr result (λ e. (e ≡ LexFault.NoMemory) ⊎ IsFault text.now e) }
{
    let mut items = Vec::new(alloc);
    let mut rest = text;
    let mut place = Place { line: 1, column: 1 };
    'pieces: while !rest.is_empty() {
        let piece = first_piece(alloc, rest, place)?;
        let (run, behind) = rest.split_at(piece.len);
        push_token(&mut items, piece.token, place)?;
        place = place_after(place, run);
        rest = behind;
    }
    Ok(Tokens { items, end: place })
}
