//! The definitions of types.

ghost use Rattle.std.specs.Prelude.{◌≡◌, [], ◌∷◌};
ghost use Rattle.rx_grammar.specs.Grammar.{rule, listed, numbered, literals, easpect, def, plain_literals, numbered_literals, with_easpects, unsigned_def, range_def, enumeration_def, sequence_def, derived_def, null_def, name_more, expr_more, aspects_more, easpect_more, literals_more, def_more};
ghost use Rattle.rx_grammar.specs.First.{after};
ghost use Rattle.rx_grammar.specs.Sentence.{Listed, IsNumbered, AreLiterals, IsEnumAspect, AreEnumAspects, IsDef, GoesOnPlain, GoesOnNumbered};
ghost use Rattle.rx_grammar.specs.Reads.{Reads};
ghost use Rattle.rx_grammar.specs.declared.terminal.Terminal.TheVariants as terminal;
ghost use Rattle.rx_syntax.specs.declared.mark.Mark.TheVariants as sign;

use crate::Fault;
use crate::cursor::{Cursor, pushed, sees, take, take_name, take_one};
use crate::expression::{expr, full_name};
use crate::message::message_def;
use crate::terminal::{Choice, Keyword, Quoted, Terminal, is_such};
use rx_syntax::{DefTree, EnumAspect, LiteralTree, Mark, Named};
use std::alloc::Global;

/// {"," NAME}, behind the first name
fn plain_literals<'t>(
    alloc: Global,
    first: Named,
    start: Cursor<'t>,
) -> Result<(Vec<LiteralTree>, Cursor<'t>), Fault>
    ensures { Reads plain_literals (after (terminal.Mark sign.Comma ∷ [])) (λ ts v. GoesOnPlain first ts v.items) start.entry result }
{
    let none = Vec::new(alloc);
    let literal = LiteralTree {
        name: first,
        number: None,
    };
    let one = pushed(none, literal)?;
    let mut list = one;
    let mut cursor = start;
    'parts: while sees(cursor, Terminal::Mark(Mark::Comma)) {
        let (_, behind) = take(cursor, Terminal::Mark(Mark::Comma))?;
        let (name, behind) = take_name(alloc, behind)?;
        let literal = LiteralTree { name, number: None };
        list = pushed(list, literal)?;
        cursor = behind;
    }
    Ok((list, cursor))
}

/// NAME "=>" expr
fn numbered<'t>(alloc: Global, cursor: Cursor<'t>) -> Result<(LiteralTree, Cursor<'t>), Fault>
    ensures { Reads numbered (after expr_more) IsNumbered cursor.entry result }
{
    let (name, cursor) = take_name(alloc, cursor)?;
    let (_, cursor) = take(cursor, Terminal::Mark(Mark::Arrow))?;
    let (tree, cursor) = expr(alloc, cursor)?;
    let literal = LiteralTree {
        name,
        number: Some(tree),
    };
    Ok((literal, cursor))
}

/// "=>" expr {"," NAME "=>" expr}, behind the first name
fn numbered_literals<'t>(
    alloc: Global,
    name: Named,
    start: Cursor<'t>,
) -> Result<(Vec<LiteralTree>, Cursor<'t>), Fault>
    ensures { Reads numbered_literals (after aspects_more) (λ ts v. GoesOnNumbered name ts v.items) start.entry result }
{
    let (_, behind) = take(start, Terminal::Mark(Mark::Arrow))?;
    let (tree, behind) = expr(alloc, behind)?;
    let none = Vec::new(alloc);
    let literal = LiteralTree {
        name,
        number: Some(tree),
    };
    let one = pushed(none, literal)?;
    let mut list = one;
    let mut cursor = behind;
    'parts: while sees(cursor, Terminal::Mark(Mark::Comma)) {
        let (_, later) = take(cursor, Terminal::Mark(Mark::Comma))?;
        let (next, behind) = numbered(alloc, later)?;
        list = pushed(list, next)?;
        cursor = behind;
    }
    Ok((list, cursor))
}

/// NAME {"," NAME} | NAME "=>" expr {"," NAME "=>" expr}
fn literals<'t>(alloc: Global, cursor: Cursor<'t>) -> Result<(Vec<LiteralTree>, Cursor<'t>), Fault>
    ensures { Reads (rule literals) (after literals_more) (λ ts v. AreLiterals ts v.items) cursor.entry result }
{
    let (name, cursor) = take_name(alloc, cursor)?;
    if sees(cursor, Terminal::Mark(Mark::Arrow)) {
        let (list, cursor) = numbered_literals(alloc, name, cursor)?;
        return Ok((list, cursor));
    }
    let (names, cursor) = plain_literals(alloc, name, cursor)?;
    Ok((names, cursor))
}

/// "Size" "=>" expr | "Always_Valid" ["=>" ("True" | "False")]
fn easpect<'t>(alloc: Global, cursor: Cursor<'t>) -> Result<(EnumAspect, Cursor<'t>), Fault>
    ensures { Reads (rule easpect) (after easpect_more) IsEnumAspect cursor.entry result }
{
    if sees(cursor, Terminal::Quoted(Quoted::Size)) {
        let (token, cursor) = take(cursor, Terminal::Quoted(Quoted::Size))?;
        let (_, cursor) = take(cursor, Terminal::Mark(Mark::Arrow))?;
        let (tree, cursor) = expr(alloc, cursor)?;
        return Ok((EnumAspect::Size(token.place, tree), cursor));
    }
    let (name, cursor) = take(cursor, Terminal::Quoted(Quoted::AlwaysValid))?;
    if !sees(cursor, Terminal::Mark(Mark::Arrow)) {
        return Ok((EnumAspect::AlwaysValid(name.place, true), cursor));
    }
    let (_, cursor) = take(cursor, Terminal::Mark(Mark::Arrow))?;
    let (truth, cursor) = take_one(cursor, Choice::Truth)?;
    let value = is_such(Terminal::Quoted(Quoted::True), &truth.kind);
    Ok((EnumAspect::AlwaysValid(name.place, value), cursor))
}

/// easpect {"," easpect}
fn easpects<'t>(alloc: Global, start: Cursor<'t>) -> Result<(Vec<EnumAspect>, Cursor<'t>), Fault>
    ensures { Reads (listed (rule easpect)) (after literals_more) (λ ts v. Listed IsEnumAspect ts v.items) start.entry result }
{
    let (first, behind) = easpect(alloc, start)?;
    let none = Vec::new(alloc);
    let one = pushed(none, first)?;
    let mut list = one;
    let mut cursor = behind;
    'parts: while sees(cursor, Terminal::Mark(Mark::Comma)) {
        let (_, behind) = take(cursor, Terminal::Mark(Mark::Comma))?;
        let (next, behind) = easpect(alloc, behind)?;
        list = pushed(list, next)?;
        cursor = behind;
    }
    Ok((list, cursor))
}

/// ["with" easpect {"," easpect}]
fn with_easpects<'t>(
    alloc: Global,
    cursor: Cursor<'t>,
) -> Result<(Vec<EnumAspect>, Cursor<'t>), Fault>
    ensures { Reads with_easpects (after def_more) (λ ts v. AreEnumAspects ts v.items) cursor.entry result }
{
    if !sees(cursor, Terminal::Keyword(Keyword::With)) {
        let none = Vec::new(alloc);
        return Ok((none, cursor));
    }
    let (_, cursor) = take(cursor, Terminal::Keyword(Keyword::With))?;
    let (list, cursor) = easpects(alloc, cursor)?;
    Ok((list, cursor))
}

/// "unsigned" expr
fn unsigned_def<'t>(alloc: Global, cursor: Cursor<'t>) -> Result<(DefTree, Cursor<'t>), Fault>
    ensures { Reads unsigned_def (after expr_more) IsDef cursor.entry result }
{
    let (_, cursor) = take(cursor, Terminal::Keyword(Keyword::Unsigned))?;
    let (tree, cursor) = expr(alloc, cursor)?;
    Ok((DefTree::Unsigned(tree), cursor))
}

/// "range" expr ".." expr "with" "Size" "=>" expr
fn range_def<'t>(alloc: Global, cursor: Cursor<'t>) -> Result<(DefTree, Cursor<'t>), Fault>
    ensures { Reads range_def (after expr_more) IsDef cursor.entry result }
{
    let (_, cursor) = take(cursor, Terminal::Keyword(Keyword::Range))?;
    let (first, cursor) = expr(alloc, cursor)?;
    let (_, cursor) = take(cursor, Terminal::Mark(Mark::DoubleDot))?;
    let (last, cursor) = expr(alloc, cursor)?;
    let (_, cursor) = take(cursor, Terminal::Keyword(Keyword::With))?;
    let (_, cursor) = take(cursor, Terminal::Quoted(Quoted::Size))?;
    let (_, cursor) = take(cursor, Terminal::Mark(Mark::Arrow))?;
    let (size, cursor) = expr(alloc, cursor)?;
    Ok((DefTree::Range(first, last, size), cursor))
}

/// "(" literals ")" ["with" easpect {"," easpect}]
fn enumeration_def<'t>(alloc: Global, cursor: Cursor<'t>) -> Result<(DefTree, Cursor<'t>), Fault>
    ensures { Reads enumeration_def (after def_more) IsDef cursor.entry result }
{
    let (_, cursor) = take(cursor, Terminal::Mark(Mark::ParenLeft))?;
    let (list, cursor) = literals(alloc, cursor)?;
    let (_, cursor) = take(cursor, Terminal::Mark(Mark::ParenRight))?;
    let (parts, cursor) = with_easpects(alloc, cursor)?;
    Ok((DefTree::Enumeration(list, parts), cursor))
}

/// "sequence" "of" name
fn sequence_def<'t>(alloc: Global, cursor: Cursor<'t>) -> Result<(DefTree, Cursor<'t>), Fault>
    ensures { Reads sequence_def (after name_more) IsDef cursor.entry result }
{
    let (_, cursor) = take(cursor, Terminal::Keyword(Keyword::Sequence))?;
    let (_, cursor) = take(cursor, Terminal::Keyword(Keyword::Of))?;
    let (name, cursor) = full_name(alloc, cursor)?;
    Ok((DefTree::Sequence(name), cursor))
}

/// "new" name
fn derived_def<'t>(alloc: Global, cursor: Cursor<'t>) -> Result<(DefTree, Cursor<'t>), Fault>
    ensures { Reads derived_def (after name_more) IsDef cursor.entry result }
{
    let (_, cursor) = take(cursor, Terminal::Keyword(Keyword::New))?;
    let (name, cursor) = full_name(alloc, cursor)?;
    Ok((DefTree::Derived(name), cursor))
}

/// "null" "message"
fn null_def<'t>(cursor: Cursor<'t>) -> Result<(DefTree, Cursor<'t>), Fault>
    ensures { Reads null_def (after []) IsDef cursor.entry result }
{
    let (_, cursor) = take(cursor, Terminal::Keyword(Keyword::Null))?;
    let (_, cursor) = take(cursor, Terminal::Keyword(Keyword::Message))?;
    Ok((DefTree::NullMessage, cursor))
}

/// The definition of a type.
pub fn def<'t>(alloc: Global, cursor: Cursor<'t>) -> Result<(DefTree, Cursor<'t>), Fault>
    ensures { Reads (rule def) (after def_more) IsDef cursor.entry result }
{
    if sees(cursor, Terminal::Keyword(Keyword::Unsigned)) {
        let (unsigned, cursor) = unsigned_def(alloc, cursor)?;
        return Ok((unsigned, cursor));
    }
    if sees(cursor, Terminal::Keyword(Keyword::Range)) {
        let (range, cursor) = range_def(alloc, cursor)?;
        return Ok((range, cursor));
    }
    if sees(cursor, Terminal::Mark(Mark::ParenLeft)) {
        let (enumeration, cursor) = enumeration_def(alloc, cursor)?;
        return Ok((enumeration, cursor));
    }
    if sees(cursor, Terminal::Keyword(Keyword::Sequence)) {
        let (sequence, cursor) = sequence_def(alloc, cursor)?;
        return Ok((sequence, cursor));
    }
    if sees(cursor, Terminal::Keyword(Keyword::New)) {
        let (derived, cursor) = derived_def(alloc, cursor)?;
        return Ok((derived, cursor));
    }
    if sees(cursor, Terminal::Keyword(Keyword::Null)) {
        let (nothing, cursor) = null_def(cursor)?;
        return Ok((nothing, cursor));
    }
    let (message, cursor) = message_def(alloc, cursor)?;
    Ok((DefTree::Message(message), cursor))
}
