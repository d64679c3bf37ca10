//! The tokens that are left, and the one place where a token is taken and the limits are tested.

ghost use Rattle.std.specs.Prelude.{◌≡◌, [], ◌∷◌, false, true, IfOk, IfErr, ◌++◌, ◌||◌, ◌&&◌, not};
ghost use Rattle.std.specs.List.{list_any};
ghost use Rattle.std.specs.Str.{bytes_eq};
ghost use Rattle.rx_grammar.specs.Terminal.{is_one_of, is_such};
ghost use Rattle.rx_grammar.specs.Grammar.{one, choice_of};
ghost use Rattle.rx_grammar.specs.First.{first_of, Ahead, after};
ghost use Rattle.rx_grammar.specs.Tokens.{IsToken, IsOneOf, IsNamed, named};
ghost use Rattle.rx_grammar.specs.Limits.{is_open, is_close, is_operator_word, is_operator, is_outside, exceeds, brackets_after, operators_after, limits_after, no_limits};
ghost use Rattle.rx_grammar.specs.Reads.{Reads};
ghost use Rattle.rx_grammar.specs.declared.terminal.Terminal.TheVariants as terminal;

use crate::Fault;
use crate::terminal::{Choice, Terminal, is_of, is_reserved, is_such};
use rx_syntax::{Mark, Named, Token, TokenKind, Word};
use std::alloc::Global;

/// How many brackets are open, and how many operators an outermost expression has so far.
#[derive(Clone, Copy, Debug)]
pub struct Limits {
    pub brackets: u8,
    pub operators: u16,
}

/// The tokens that are left.
#[derive(Clone, Copy, Debug)]
pub struct Cursor<'t> {
    pub rest: &'t [Token],
    pub limits: Limits,
}

/// The cursor before the first of these tokens.
pub fn start(tokens: &[Token]) -> Cursor<'_>
    ensures tokens { result.rest.now ≡ tokens.now }
    ensures limits { result.limits ≡ no_limits }
{
    Cursor {
        rest: tokens,
        limits: Limits {
            brackets: 0,
            operators: 0,
        },
    }
}

fn is_open(kind: &TokenKind) -> bool
    ensures { result ≡ is_open kind.now }
{
    matches!(
        kind,
        TokenKind::Mark(Mark::ParenLeft) | TokenKind::Mark(Mark::BracketLeft)
    )
}

fn is_close(kind: &TokenKind) -> bool
    ensures { result ≡ is_close kind.now }
{
    matches!(
        kind,
        TokenKind::Mark(Mark::ParenRight) | TokenKind::Mark(Mark::BracketRight)
    )
}

fn is_operator_word(word: &Word) -> bool
    ensures { result ≡ is_operator_word word.now }
{
    let conjunction = word.is_written("and");
    let disjunction = word.is_written("or");
    let negation = word.is_written("not");
    let rest = word.is_written("mod");
    conjunction || disjunction || negation || rest
}

fn is_operator(kind: &TokenKind) -> bool
    ensures { result ≡ is_operator kind.now }
{
    match kind {
        TokenKind::Word(word) => is_operator_word(word),
        TokenKind::Number(_) => false,
        TokenKind::Mark(mark) => match mark {
            Mark::Equal
            | Mark::NotEqual
            | Mark::Less
            | Mark::LessEqual
            | Mark::Greater
            | Mark::GreaterEqual
            | Mark::Plus
            | Mark::Minus
            | Mark::Star
            | Mark::Slash
            | Mark::DoubleStar => true,
            _ => false,
        },
    }
}

/// Whether the token stands in no expression.
fn is_outside(kind: &TokenKind) -> bool
    ensures { result ≡ is_outside kind.now }
{
    match kind {
        TokenKind::Word(word) => {
            let reserved = is_reserved(word);
            let operator = is_operator_word(word);
            reserved && !operator
        }
        TokenKind::Number(_) => false,
        TokenKind::Mark(mark) => match mark {
            Mark::Semicolon
            | Mark::Comma
            | Mark::Arrow
            | Mark::DoubleDot
            | Mark::Colon
            | Mark::Assign
            | Mark::BracketLeft
            | Mark::BracketRight => true,
            _ => false,
        },
    }
}

/// Whether the token is the 65th open bracket, or the 257th operator.
fn exceeds(limits: Limits, kind: &TokenKind) -> bool
    ensures { result ≡ exceeds limits kind.now }
{
    let bracket = is_open(kind) && limits.brackets >= 64;
    let operator = is_operator(kind) && limits.operators >= 256;
    bracket || operator
}

/// The limits behind a token.
fn limits_after(limits: Limits, kind: &TokenKind) -> Limits
    requires { exceeds limits kind.now ≡ false }
    ensures { result ≡ limits_after limits kind.now }
{
    Limits {
        brackets: brackets_after(limits, kind),
        operators: operators_after(limits, kind),
    }
}

fn brackets_after(limits: Limits, kind: &TokenKind) -> u8
    requires { exceeds limits kind.now ≡ false }
    ensures { result ≡ brackets_after limits.brackets kind.now }
{
    if is_open(kind) {
        limits.brackets + 1
    } else if is_close(kind) {
        limits.brackets.saturating_sub(1)
    } else {
        limits.brackets
    }
}

fn operators_after(limits: Limits, kind: &TokenKind) -> u16
    requires { exceeds limits kind.now ≡ false }
    ensures { result ≡ operators_after limits.operators kind.now }
{
    if is_operator(kind) {
        limits.operators + 1
    } else if is_outside(kind) {
        0
    } else {
        limits.operators
    }
}

/// The next token, if it is such a one, and the cursor behind it.
pub fn take<'t>(cursor: Cursor<'t>, terminal: Terminal) -> Result<(&'t Token, Cursor<'t>), Fault>
    ensures { Reads (one terminal) (after []) (IsToken terminal) cursor.entry result }
{
    let Some((token, rest)) = cursor.rest.split_first() else {
        return Err(Fault::Expected(0));
    };
    if !is_such(terminal, &token.kind) {
        return Err(Fault::Expected(cursor.rest.len()));
    }
    if exceeds(cursor.limits, &token.kind) {
        return Err(Fault::TooDeep(cursor.rest.len()));
    }
    let limits = limits_after(cursor.limits, &token.kind);
    Ok((token, Cursor { rest, limits }))
}

/// The next token, if it is one of the choice, and the cursor behind it.
pub fn take_one<'t>(cursor: Cursor<'t>, choice: Choice) -> Result<(&'t Token, Cursor<'t>), Fault>
    ensures { Reads (choice_of choice) (after []) (IsOneOf choice) cursor.entry result }
{
    let Some((token, rest)) = cursor.rest.split_first() else {
        return Err(Fault::Expected(0));
    };
    if !is_of(choice, &token.kind) {
        return Err(Fault::Expected(cursor.rest.len()));
    }
    if exceeds(cursor.limits, &token.kind) {
        return Err(Fault::TooDeep(cursor.rest.len()));
    }
    let limits = limits_after(cursor.limits, &token.kind);
    Ok((token, Cursor { rest, limits }))
}

/// Whether the next token is such a one.
pub fn sees(cursor: Cursor<'_>, terminal: Terminal) -> bool
    ensures { Ahead (terminal ∷ []) cursor.entry.rest.now result }
{
    match cursor.rest.first() {
        None => false,
        Some(token) => is_such(terminal, &token.kind),
    }
}

/// Whether the next token is one of the choice.
pub fn sees_one(cursor: Cursor<'_>, choice: Choice) -> bool
    ensures { Ahead (first_of (choice_of choice)) cursor.entry.rest.now result }
{
    match cursor.rest.first() {
        None => false,
        Some(token) => is_of(choice, &token.kind),
    }
}

/// The word of a token, at its place.
pub fn named(alloc: Global, token: &Token) -> Result<Named, Fault>
    requires { is_such terminal.Name token.now.kind ≡ true }
    ensures named { IfOk result (λ n. n ≡ named token.now) }
    ensures memory { IfErr result (λ e. e ≡ Fault.NoMemory) }
{
    match &token.kind {
        TokenKind::Word(word) => Ok(Named {
            word: word.copy(alloc)?,
            place: token.place,
        }),
        _ => unreachable!(),
    }
}

/// The next token, if it is a name.
pub fn take_name<'t>(alloc: Global, cursor: Cursor<'t>) -> Result<(Named, Cursor<'t>), Fault>
    ensures { Reads (one terminal.Name) (after []) IsNamed cursor.entry result }
{
    let (token, cursor) = take(cursor, Terminal::Name)?;
    let name = named(alloc, token)?;
    Ok((name, cursor))
}

/// Whether the next token is one of two.
pub fn sees_either(cursor: Cursor<'_>, one: Terminal, other: Terminal) -> bool
    ensures { Ahead (one ∷ other ∷ []) cursor.entry.rest.now result }
{
    let first = sees(cursor, one);
    let second = sees(cursor, other);
    if first {
        return true;
    }
    second
}

/// The list with one more item at its end.
pub fn pushed<T: Drop>(list: Vec<T>, item: T) -> Result<Vec<T>, Fault>
    ensures items { IfOk result (λ v. v.items ≡ list.items ++ item ∷ []) }
    ensures memory { IfErr result (λ e. e ≡ Fault.NoMemory) }
{
    let mut list = list;
    list.push(item)?;
    Ok(list)
}
