//! The parts of a package: a header, a declaration or an expression, read at any token.

ghost use Rattle.std.specs.Prelude.{◌≡◌, ℕ, ◌+◌, ◌-◌, ◌<◌, ◌≤◌, [], ◌∷◌, length, take, drop, IfOk, IfErr, IfSome, IfNone, ◌⊎◌, false};
ghost use Rattle.rx_grammar.specs.Grammar.{rule, header, plain_decl, expr, Derives, Whole};
ghost use Rattle.rx_grammar.specs.Limits.{Fits, no_limits};
ghost use Rattle.rx_grammar.specs.Sentence.{IsExpr};
ghost use Rattle.rx_grammar.specs.Syntax.{IsFaultAlone};
ghost use Rattle.rx_grammar.specs.Part.{start_of, IsPartRead, IsPartStop, IsPartFault, IsLongestExpr, NoFront};
ghost use Rattle.rx_grammar.specs.declared.part.Part.TheVariants as part;

use crate::cursor::start;
use crate::expression::expr;
use crate::package::{decl, header};
use crate::parse::fault_of;
use crate::{Fault, SyntaxFault};
use rx_syntax::{DeclTree, ExprTree, HeaderTree, Token, Tokens};
use std::alloc::Global;

/// A part of a package.
#[derive(Clone, Copy, Debug, PartialEq, Eq)]
pub enum Part {
    Header,
    Declaration,
    Expression,
}

/// The tree of a part.
#[derive(Debug, Drop)]
pub enum PartTree {
    Header(HeaderTree),
    Declaration(DeclTree),
    Expression(ExprTree),
}

/// The index of the next token, where so many of the tokens are left.
fn next_index(from: usize, len: usize, left: usize) -> usize
    requires room { from + len < 18446744073709551616 }
    requires left { left ≤ len }
    ensures { result ≡ from + (len - left) }
{
    from + (len - left)
}

fn header_part(alloc: Global, items: &[Token], from: usize) -> Result<(PartTree, usize), Fault>
    requires { from + length items.now < 18446744073709551616 }
    ensures part { IfOk result (λ x. IsPartRead part.Header items.now from x.0 x.1) }
    ensures fault { IfErr result (λ e. IsPartStop (rule header) items.now e) }
{
    let (tree, cursor) = header(alloc, start(items))?;
    Ok((
        PartTree::Header(tree),
        next_index(from, items.len(), cursor.rest.len()),
    ))
}

fn declaration_part(alloc: Global, items: &[Token], from: usize) -> Result<(PartTree, usize), Fault>
    requires { from + length items.now < 18446744073709551616 }
    ensures part { IfOk result (λ x. IsPartRead part.Declaration items.now from x.0 x.1) }
    ensures fault { IfErr result (λ e. IsPartStop (rule plain_decl) items.now e) }
{
    let (tree, cursor) = decl(alloc, start(items))?;
    Ok((
        PartTree::Declaration(tree),
        next_index(from, items.len(), cursor.rest.len()),
    ))
}

/// The expression that its parser reads at the first token, and its length.
fn first_expr(alloc: Global, items: &[Token]) -> Result<(ExprTree, usize), Fault>
    ensures found { IfOk result (λ x. IsLongestExpr items.now x.0 x.1) }
    ensures fault { IfErr result (λ e. IsFaultAlone (rule expr) items.now e) }
{
    let (tree, cursor) = expr(alloc, start(items))?;
    Ok((tree, next_index(0, items.len(), cursor.rest.len())))
}

/// The expression that all the tokens are, if they are one.
fn whole_expr(alloc: Global, items: &[Token]) -> Result<Option<ExprTree>, Fault>
    requires { Fits no_limits items.now }
    ensures some { IfOk result (λ o. IfSome o (λ tree. IsExpr items.now tree)) }
    ensures none { IfOk result (λ o. IfNone o (Derives Whole (rule expr ∷ []) items.now → ⊥)) }
    ensures memory { IfErr result (λ e. e ≡ Fault.NoMemory) }
{
    match first_expr(alloc, items) {
        Ok((tree, len)) => {
            if len == items.len() {
                return Ok(Some(tree));
            }
            Ok(None)
        }
        Err(Fault::Expected(_)) => Ok(None),
        Err(Fault::TooDeep(_)) => unreachable!(),
        Err(Fault::NoMemory) => Err(Fault::NoMemory),
    }
}

/// The longest front of the tokens that is an expression, with its length.
///
/// Some expression begins with the tokens, so the limits bound their number.
fn longest_front(alloc: Global, items: &[Token]) -> Result<Option<(ExprTree, usize)>, Fault>
    requires { Fits no_limits items.now }
    ensures some { IfOk result (λ o. IfSome o (λ x. IsLongestExpr items.now x.0 x.1)) }
    ensures none { IfOk result (λ o. IfNone o (NoFront (rule expr) items.now)) }
    ensures memory { IfErr result (λ e. e ≡ Fault.NoMemory) }
{
    let mut len = items.len();
    'fronts: while len > 0 {
        let (front, _) = items.split_at(len);
        let found = whole_expr(alloc, front)?;
        if let Some(tree) = found {
            return Ok(Some((tree, len)));
        }
        len -= 1;
    }
    Ok(None)
}

/// The longest expression, where the parser failed with so many tokens left.
fn shorter_expr(alloc: Global, items: &[Token], left: usize) -> Result<(ExprTree, usize), Fault>
    requires within { left ≤ length items.now }
    requires fault { IsFaultAlone (rule expr) items.now (Fault.Expected left) }
    ensures found { IfOk result (λ x. IsLongestExpr items.now x.0 x.1) }
    ensures fault { IfErr result (λ e. IsPartStop (rule expr) items.now e) }
{
    let (front, _) = items.split_at(items.len() - left);
    let found = longest_front(alloc, front)?;
    match found {
        Some(longest) => Ok(longest),
        None => Err(Fault::Expected(left)),
    }
}

/// The longest expression at the first token, and its length.
fn longest_expr(alloc: Global, items: &[Token]) -> Result<(ExprTree, usize), Fault>
    ensures found { IfOk result (λ x. IsLongestExpr items.now x.0 x.1) }
    ensures fault { IfErr result (λ e. IsPartStop (rule expr) items.now e) }
{
    match first_expr(alloc, items) {
        Ok(found) => Ok(found),
        Err(Fault::Expected(left)) => shorter_expr(alloc, items, left),
        Err(Fault::TooDeep(left)) => Err(Fault::TooDeep(left)),
        Err(Fault::NoMemory) => Err(Fault::NoMemory),
    }
}

/// The index behind so many tokens.
fn index_behind(from: usize, len: usize) -> usize
    requires { from + len < 18446744073709551616 }
    ensures { result ≡ from + len }
{
    from + len
}

fn expression_part(alloc: Global, items: &[Token], from: usize) -> Result<(PartTree, usize), Fault>
    requires { from + length items.now < 18446744073709551616 }
    ensures part { IfOk result (λ x. IsPartRead part.Expression items.now from x.0 x.1) }
    ensures fault { IfErr result (λ e. IsPartStop (rule expr) items.now e) }
{
    let (tree, len) = longest_expr(alloc, items)?;
    Ok((PartTree::Expression(tree), index_behind(from, len)))
}

fn any_part(
    alloc: Global,
    items: &[Token],
    from: usize,
    part: Part,
) -> Result<(PartTree, usize), Fault>
    requires { from + length items.now < 18446744073709551616 }
    ensures part { IfOk result (λ x. IsPartRead part items.now from x.0 x.1) }
    ensures fault { IfErr result (λ e. IsPartStop (start_of part) items.now e) }
{
    match part {
        Part::Header => header_part(alloc, items, from),
        Part::Declaration => declaration_part(alloc, items, from),
        Part::Expression => expression_part(alloc, items, from),
    }
}

/// The longest sentence of the part at a token, and the index of the next token; or the fault, where no front of the tokens is a sentence or a limit is passed.
///
/// Of `a + )` the part Expression is `a`, and the next token has the index 1.
pub fn parse_part(
    alloc: Global,
    tokens: &Tokens,
    from: usize,
    part: Part,
) -> Result<(PartTree, usize), SyntaxFault>
    requires { from ≤ length tokens.now.items.items }
    ensures part { IfOk result (λ x. IsPartRead part (drop from tokens.now.items.items) from x.0 x.1) }
    ensures fault { IfErr result (λ e. (e ≡ SyntaxFault.NoMemory) ⊎ IsPartFault (start_of part) (drop from tokens.now.items.items) tokens.now.end e) }
{
    let all = tokens.items.as_slice();
    let (_, items) = all.split_at(from);
    match any_part(alloc, items, from, part) {
        Ok(found) => Ok(found),
        Err(fault) => Err(fault_of(alloc, items, tokens.end, fault, false)),
    }
}
