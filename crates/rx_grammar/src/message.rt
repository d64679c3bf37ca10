//! Messages and their fields.

ghost use Rattle.std.specs.Prelude.{◌≡◌, [], ◌∷◌};
ghost use Rattle.rx_grammar.specs.Grammar.{rule, some, field, start_thens, byte_order, message_def};
ghost use Rattle.rx_grammar.specs.First.{after};
ghost use Rattle.rx_grammar.specs.Sentence.{AtLeastOne, IsField, IsStart, IsByteOrder, IsMessage};
ghost use Rattle.rx_grammar.specs.Reads.{Reads};
ghost use Rattle.rx_grammar.specs.declared.terminal.Terminal.TheVariants as terminal;
ghost use Rattle.rx_grammar.specs.declared.terminal.Keyword.TheVariants as word;

use crate::Fault;
use crate::cursor::{Cursor, pushed, sees, take, take_name, take_one};
use crate::expression::full_name;
use crate::link::{condition, maybe_thens, thens, with_aspects};
use crate::terminal::{Choice, Keyword, Quoted, Terminal, is_such};
use rx_syntax::{FieldTree, Mark, MessageTree, ThenTree};
use std::alloc::Global;

/// NAME ":" name ["with" aspects] ["if" expr] [thens] ";"
fn field<'t>(alloc: Global, cursor: Cursor<'t>) -> Result<(FieldTree, Cursor<'t>), Fault>
    ensures { Reads (rule field) (after []) IsField cursor.entry result }
{
    let (name, cursor) = take_name(alloc, cursor)?;
    let (_, cursor) = take(cursor, Terminal::Mark(Mark::Colon))?;
    let (kind, cursor) = full_name(alloc, cursor)?;
    let (list, cursor) = with_aspects(alloc, cursor)?;
    let (test, cursor) = condition(alloc, cursor)?;
    let (links, cursor) = maybe_thens(alloc, cursor)?;
    let (_, cursor) = take(cursor, Terminal::Mark(Mark::Semicolon))?;
    let tree = FieldTree {
        name,
        kind,
        aspects: list,
        condition: test,
        thens: links,
    };
    Ok((tree, cursor))
}

/// field {field}
fn fields<'t>(alloc: Global, start: Cursor<'t>) -> Result<(Vec<FieldTree>, Cursor<'t>), Fault>
    ensures { Reads (some (rule field)) (after (terminal.Name ∷ [])) (λ ts v. AtLeastOne IsField ts v.items) start.entry result }
{
    let (first, behind) = field(alloc, start)?;
    let none = Vec::new(alloc);
    let one = pushed(none, first)?;
    let mut list = one;
    let mut cursor = behind;
    'parts: while sees(cursor, Terminal::Name) {
        let (next, behind) = field(alloc, cursor)?;
        list = pushed(list, next)?;
        cursor = behind;
    }
    Ok((list, cursor))
}

/// ["null" thens ";"]
fn start_thens<'t>(alloc: Global, cursor: Cursor<'t>) -> Result<(Vec<ThenTree>, Cursor<'t>), Fault>
    ensures { Reads start_thens (after (terminal.Keyword word.Null ∷ [])) (λ ts v. IsStart ts v.items) cursor.entry result }
{
    if !sees(cursor, Terminal::Keyword(Keyword::Null)) {
        let none = Vec::new(alloc);
        return Ok((none, cursor));
    }
    let (_, cursor) = take(cursor, Terminal::Keyword(Keyword::Null))?;
    let (list, cursor) = thens(alloc, cursor)?;
    let (_, cursor) = take(cursor, Terminal::Mark(Mark::Semicolon))?;
    Ok((list, cursor))
}

/// ["with" "Byte_Order" "=>" ("High_Order_First" | "Low_Order_First")]
fn byte_order<'t>(cursor: Cursor<'t>) -> Result<(bool, Cursor<'t>), Fault>
    ensures { Reads byte_order (after (terminal.Keyword word.With ∷ [])) IsByteOrder cursor.entry result }
{
    if !sees(cursor, Terminal::Keyword(Keyword::With)) {
        return Ok((false, cursor));
    }
    let (_, cursor) = take(cursor, Terminal::Keyword(Keyword::With))?;
    let (_, cursor) = take(cursor, Terminal::Quoted(Quoted::ByteOrder))?;
    let (_, cursor) = take(cursor, Terminal::Mark(Mark::Arrow))?;
    let (token, cursor) = take_one(cursor, Choice::Order)?;
    let low = is_such(Terminal::Quoted(Quoted::LowOrderFirst), &token.kind);
    Ok((low, cursor))
}

/// "message" ["null" thens ";"] field {field} "end" "message" ["with" "Byte_Order" "=>" order]
pub fn message_def<'t>(
    alloc: Global,
    cursor: Cursor<'t>,
) -> Result<(MessageTree, Cursor<'t>), Fault>
    ensures { Reads message_def (after (terminal.Keyword word.With ∷ [])) IsMessage cursor.entry result }
{
    let (_, cursor) = take(cursor, Terminal::Keyword(Keyword::Message))?;
    let (start, cursor) = start_thens(alloc, cursor)?;
    let (list, cursor) = fields(alloc, cursor)?;
    let (_, cursor) = take(cursor, Terminal::Keyword(Keyword::End))?;
    let (_, cursor) = take(cursor, Terminal::Keyword(Keyword::Message))?;
    let (low_order, cursor) = byte_order(cursor)?;
    let tree = MessageTree {
        start,
        fields: list,
        low_order,
    };
    Ok((tree, cursor))
}
