//! Aspects, conditions and links.

ghost use Rattle.std.specs.Prelude.{◌≡◌, [], ◌∷◌, IfOk, IfErr, true, false, Some, None};
ghost use Rattle.rx_grammar.specs.Terminal.{is_such};
ghost use Rattle.rx_grammar.specs.Grammar.{rule, maybe, mark, ◌▸◌, condition, with_aspects, more_thens, aspect, aspects, one_then, thens, expr_more, condition_more, aspects_more, with_aspects_more, thens_more};
ghost use Rattle.rx_grammar.specs.First.{after, exactly};
ghost use Rattle.rx_grammar.specs.Tokens.{word_of};
ghost use Rattle.rx_grammar.specs.Sentence.{IsCondition, IsAspect, Listed, AreAspects, IsThen, IsNextThen, AreThens, MaybeThens, ListGoesOn};
ghost use Rattle.rx_grammar.specs.Reads.{Reads};
ghost use Rattle.rx_grammar.specs.declared.terminal.Terminal.TheVariants as terminal;
ghost use Rattle.rx_grammar.specs.declared.terminal.Quoted.TheVariants as quoted;
ghost use Rattle.rx_syntax.specs.declared.mark.Mark.TheVariants as sign;
ghost use Rattle.rx_syntax.specs.declared.tree.AspectTree.TheVariants as tree;

use crate::Fault;
use crate::cursor::{Cursor, pushed, sees, sees_either, take, take_one};
use crate::expression::expr;
use crate::terminal::{Choice, Keyword, Quoted, Terminal, is_such};
use rx_syntax::{AspectTree, ExprTree, Mark, ThenTree, Token, TokenKind, Word};
use std::alloc::Global;

/// ["if" expr]
pub fn condition<'t>(
    alloc: Global,
    cursor: Cursor<'t>,
) -> Result<(Option<ExprTree>, Cursor<'t>), Fault>
    ensures { Reads condition (after condition_more) IsCondition cursor.entry result }
{
    if !sees(cursor, Terminal::Keyword(Keyword::If)) {
        return Ok((None, cursor));
    }
    let (_, cursor) = take(cursor, Terminal::Keyword(Keyword::If))?;
    let (tree, cursor) = expr(alloc, cursor)?;
    Ok((Some(tree), cursor))
}

/// The aspect that a name and an expression make.
fn aspect_of(token: &Token, size: ExprTree) -> AspectTree
    ensures first { is_such (terminal.Quoted quoted.First) token.now.kind ≡ true → result ≡ tree.First token.now.place size }
    ensures other { is_such (terminal.Quoted quoted.First) token.now.kind ≡ false → result ≡ tree.Size token.now.place size }
{
    if is_such(Terminal::Quoted(Quoted::First), &token.kind) {
        AspectTree::First(token.place, size)
    } else {
        AspectTree::Size(token.place, size)
    }
}

/// ("First" | "Size") "=>" expr
fn aspect<'t>(alloc: Global, cursor: Cursor<'t>) -> Result<(AspectTree, Cursor<'t>), Fault>
    ensures { Reads (rule aspect) (after expr_more) IsAspect cursor.entry result }
{
    let (token, cursor) = take_one(cursor, Choice::Aspect)?;
    let (_, cursor) = take(cursor, Terminal::Mark(Mark::Arrow))?;
    let (tree, cursor) = expr(alloc, cursor)?;
    Ok((aspect_of(token, tree), cursor))
}

/// aspect {"," aspect}
fn aspects<'t>(alloc: Global, start: Cursor<'t>) -> Result<(Vec<AspectTree>, Cursor<'t>), Fault>
    ensures { Reads (rule aspects) (after aspects_more) (λ ts v. Listed IsAspect ts v.items) start.entry result }
{
    let (first, behind) = aspect(alloc, start)?;
    let none = Vec::new(alloc);
    let one = pushed(none, first)?;
    let mut list = one;
    let mut cursor = behind;
    'parts: while sees(cursor, Terminal::Mark(Mark::Comma)) {
        let (_, behind) = take(cursor, Terminal::Mark(Mark::Comma))?;
        let (next, behind) = aspect(alloc, behind)?;
        list = pushed(list, next)?;
        cursor = behind;
    }
    Ok((list, cursor))
}

/// ["with" aspects]
pub fn with_aspects<'t>(
    alloc: Global,
    cursor: Cursor<'t>,
) -> Result<(Vec<AspectTree>, Cursor<'t>), Fault>
    ensures { Reads with_aspects (after with_aspects_more) (λ ts v. AreAspects ts v.items) cursor.entry result }
{
    if !sees(cursor, Terminal::Keyword(Keyword::With)) {
        let none = Vec::new(alloc);
        return Ok((none, cursor));
    }
    let (_, cursor) = take(cursor, Terminal::Keyword(Keyword::With))?;
    let (list, cursor) = aspects(alloc, cursor)?;
    Ok((list, cursor))
}

/// Whether a comma stands before another aspect; one before `then` belongs to the next link.
fn sees_aspect(cursor: Cursor<'_>) -> bool
    ensures { ListGoesOn cursor.entry.rest.now result }
{
    let Some((first, rest)) = cursor.rest.split_first() else {
        return false;
    };
    if !is_such(Terminal::Mark(Mark::Comma), &first.kind) {
        return false;
    }
    match rest.split_first() {
        None => true,
        Some((second, _)) => !is_such(Terminal::Keyword(Keyword::Then), &second.kind),
    }
}

/// aspect {"," aspect}, in a link
fn link_aspects<'t>(
    alloc: Global,
    start: Cursor<'t>,
) -> Result<(Vec<AspectTree>, Cursor<'t>), Fault>
    ensures { Reads (rule aspects) (exactly (condition ∷ more_thens ∷ []) thens_more) (λ ts v. Listed IsAspect ts v.items) start.entry result }
{
    let (first, behind) = aspect(alloc, start)?;
    let none = Vec::new(alloc);
    let one = pushed(none, first)?;
    let mut list = one;
    let mut cursor = behind;
    'parts: while sees_aspect(cursor) {
        let (_, behind) = take(cursor, Terminal::Mark(Mark::Comma))?;
        let (next, behind) = aspect(alloc, behind)?;
        list = pushed(list, next)?;
        cursor = behind;
    }
    Ok((list, cursor))
}

/// ["with" aspects], in a link
fn link_with<'t>(alloc: Global, cursor: Cursor<'t>) -> Result<(Vec<AspectTree>, Cursor<'t>), Fault>
    ensures { Reads with_aspects (exactly (condition ∷ more_thens ∷ []) thens_more) (λ ts v. AreAspects ts v.items) cursor.entry result }
{
    if !sees(cursor, Terminal::Keyword(Keyword::With)) {
        let none = Vec::new(alloc);
        return Ok((none, cursor));
    }
    let (_, cursor) = take(cursor, Terminal::Keyword(Keyword::With))?;
    let (list, cursor) = link_aspects(alloc, cursor)?;
    Ok((list, cursor))
}

/// The word of a target, unless it is null.
pub fn target_of(alloc: Global, token: &Token) -> Result<Option<Word>, Fault>
    ensures name { is_such terminal.Name token.now.kind ≡ true → IfOk result (λ w. w ≡ Some (word_of token.now.kind)) }
    ensures null { is_such terminal.Name token.now.kind ≡ false → IfOk result (λ w. w ≡ None) }
    ensures memory { IfErr result (λ e. e ≡ Fault.NoMemory) }
{
    if !is_such(Terminal::Name, &token.kind) {
        return Ok(None);
    }
    match &token.kind {
        TokenKind::Word(word) => {
            let copy = word.copy(alloc)?;
            Ok(Some(copy))
        }
        _ => unreachable!(),
    }
}

/// "then" (NAME | "null") ["with" aspects] ["if" expr]
fn one_then<'t>(alloc: Global, cursor: Cursor<'t>) -> Result<(ThenTree, Cursor<'t>), Fault>
    ensures { Reads (rule one_then) (exactly (more_thens ∷ []) thens_more) IsThen cursor.entry result }
{
    let (_, cursor) = take(cursor, Terminal::Keyword(Keyword::Then))?;
    let (token, cursor) = take_one(cursor, Choice::Target)?;
    let target = target_of(alloc, token)?;
    let (list, cursor) = link_with(alloc, cursor)?;
    let (test, cursor) = condition(alloc, cursor)?;
    let link = ThenTree {
        target,
        place: token.place,
        aspects: list,
        condition: test,
    };
    Ok((link, cursor))
}

/// [","] then
fn next_then<'t>(alloc: Global, cursor: Cursor<'t>) -> Result<(ThenTree, Cursor<'t>), Fault>
    ensures { Reads (maybe (mark sign.Comma) ▸ rule one_then) (exactly (more_thens ∷ []) thens_more) IsNextThen cursor.entry result }
{
    if sees(cursor, Terminal::Mark(Mark::Comma)) {
        let (_, cursor) = take(cursor, Terminal::Mark(Mark::Comma))?;
        let (next, cursor) = one_then(alloc, cursor)?;
        return Ok((next, cursor));
    }
    let (link, cursor) = one_then(alloc, cursor)?;
    Ok((link, cursor))
}

/// then {[","] then}
pub fn thens<'t>(alloc: Global, start: Cursor<'t>) -> Result<(Vec<ThenTree>, Cursor<'t>), Fault>
    ensures { Reads (rule thens) (after thens_more) (λ ts v. AreThens ts v.items) start.entry result }
{
    let (first, behind) = one_then(alloc, start)?;
    let none = Vec::new(alloc);
    let one = pushed(none, first)?;
    let mut list = one;
    let mut cursor = behind;
    'parts: while sees_either(
        cursor,
        Terminal::Mark(Mark::Comma),
        Terminal::Keyword(Keyword::Then),
    ) {
        let (next, behind) = next_then(alloc, cursor)?;
        list = pushed(list, next)?;
        cursor = behind;
    }
    Ok((list, cursor))
}

/// [thens]
pub fn maybe_thens<'t>(
    alloc: Global,
    cursor: Cursor<'t>,
) -> Result<(Vec<ThenTree>, Cursor<'t>), Fault>
    ensures { Reads (maybe (rule thens)) (after thens_more) (λ ts v. MaybeThens ts v.items) cursor.entry result }
{
    if !sees(cursor, Terminal::Keyword(Keyword::Then)) {
        let none = Vec::new(alloc);
        return Ok((none, cursor));
    }
    let (list, cursor) = thens(alloc, cursor)?;
    Ok((list, cursor))
}
