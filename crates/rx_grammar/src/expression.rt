//! Names and expressions, by recursive descent. Operators of one level group from the left.

ghost use Rattle.std.specs.Prelude.{◌≡◌, [], ◌∷◌, IfOk, IfErr, true};
ghost use Rattle.rx_grammar.specs.Terminal.{is_such};
ghost use Rattle.rx_grammar.specs.Grammar.{rule, full_name, expr, conj, rel, sum, product, power, factor, operand, signed, NUM, attr, name_more, factor_more, power_more, product_more, sum_more, rel_more, conj_more, expr_more};
ghost use Rattle.rx_grammar.specs.First.{after};
ghost use Rattle.rx_grammar.specs.Tokens.{number_of, operator_of, attr_of};
ghost use Rattle.rx_grammar.specs.Sentence.{IsName, IsBinary, IsNegative, IsNegation, IsOperand, IsExpr, IsConj, IsRel, IsSum, IsSigned, IsProduct, IsPower, IsFactor};
ghost use Rattle.rx_grammar.specs.Reads.{Reads};
ghost use Rattle.rx_grammar.specs.declared.terminal.Terminal.TheVariants as terminal;
ghost use Rattle.rx_syntax.specs.declared.tree.ExprTree.TheVariants as tree;

use crate::Fault;
use crate::cursor::{Cursor, sees, sees_one, take, take_name, take_one};
use crate::terminal::{Choice, Keyword, Terminal};
use rx_syntax::{Attr, ExprTree, Mark, NameTree, Operator, Token, TokenKind};
use std::alloc::Global;

/// NAME ["::" NAME]
pub fn full_name<'t>(alloc: Global, cursor: Cursor<'t>) -> Result<(NameTree, Cursor<'t>), Fault>
    ensures { Reads (rule full_name) (after name_more) IsName cursor.entry result }
{
    let (first, cursor) = take_name(alloc, cursor)?;
    if !sees(cursor, Terminal::Mark(Mark::DoubleColon)) {
        let tree = NameTree {
            package: None,
            name: first,
        };
        return Ok((tree, cursor));
    }
    let (_, cursor) = take(cursor, Terminal::Mark(Mark::DoubleColon))?;
    let (second, cursor) = take_name(alloc, cursor)?;
    let tree = NameTree {
        package: Some(first),
        name: second,
    };
    Ok((tree, cursor))
}

/// The operator that a token is.
fn operator_of(kind: &TokenKind) -> Operator
    ensures { result ≡ operator_of kind.now }
{
    match kind {
        TokenKind::Word(word) => {
            if word.is_written("or") {
                Operator::Or
            } else if word.is_written("and") {
                Operator::And
            } else {
                Operator::Mod
            }
        }
        TokenKind::Number(_) => Operator::Mod,
        TokenKind::Mark(mark) => match mark {
            Mark::Equal => Operator::Equal,
            Mark::NotEqual => Operator::NotEqual,
            Mark::Less => Operator::Less,
            Mark::LessEqual => Operator::LessEqual,
            Mark::Greater => Operator::Greater,
            Mark::GreaterEqual => Operator::GreaterEqual,
            Mark::Plus => Operator::Add,
            Mark::Minus => Operator::Sub,
            Mark::Star => Operator::Mul,
            Mark::Slash => Operator::Div,
            Mark::DoubleStar => Operator::Power,
            _ => Operator::Mod,
        },
    }
}

/// The attribute that a token is.
fn attr_of(kind: &TokenKind) -> Attr
    ensures { result ≡ attr_of kind.now }
{
    match kind {
        TokenKind::Word(word) => {
            if word.is("First") {
                Attr::First
            } else if word.is("Last") {
                Attr::Last
            } else if word.is("Size") {
                Attr::Size
            } else if word.is("Valid") {
                Attr::Valid
            } else if word.is("Has_Data") {
                Attr::HasData
            } else {
                Attr::Opaque
            }
        }
        _ => Attr::Opaque,
    }
}

/// The node of an operator with two parts.
fn binary(alloc: Global, token: &Token, left: ExprTree, right: ExprTree) -> Result<ExprTree, Fault>
    ensures tree { IfOk result (λ tree. IsBinary token.now left right tree) }
    ensures memory { IfErr result (λ e. e ≡ Fault.NoMemory) }
{
    Ok(ExprTree::Binary(
        operator_of(&token.kind),
        token.place,
        Box::new(alloc, left)?,
        Box::new(alloc, right)?,
    ))
}

/// The node of a `-` before its part.
fn negative(alloc: Global, token: &Token, part: ExprTree) -> Result<ExprTree, Fault>
    ensures tree { IfOk result (λ tree. IsNegative token.now part tree) }
    ensures memory { IfErr result (λ e. e ≡ Fault.NoMemory) }
{
    Ok(ExprTree::Neg(token.place, Box::new(alloc, part)?))
}

/// The node of a `not` before its part.
fn negation(alloc: Global, token: &Token, part: ExprTree) -> Result<ExprTree, Fault>
    ensures tree { IfOk result (λ tree. IsNegation token.now part tree) }
    ensures memory { IfErr result (λ e. e ≡ Fault.NoMemory) }
{
    Ok(ExprTree::Not(token.place, Box::new(alloc, part)?))
}

/// The leaf of a number.
fn number_tree(token: &Token) -> ExprTree
    requires { is_such terminal.Number token.now.kind ≡ true }
    ensures { result ≡ tree.Number (number_of token.now.kind) token.now.place }
{
    match &token.kind {
        TokenKind::Number(number) => ExprTree::Number(*number, token.place),
        _ => unreachable!(),
    }
}

/// name [("'" attr) | ("." NAME)]
fn operand<'t>(alloc: Global, cursor: Cursor<'t>) -> Result<(ExprTree, Cursor<'t>), Fault>
    ensures { Reads operand (after factor_more) IsOperand cursor.entry result }
{
    let (name, cursor) = full_name(alloc, cursor)?;
    if sees(cursor, Terminal::Mark(Mark::Tick)) {
        let (_, cursor) = take(cursor, Terminal::Mark(Mark::Tick))?;
        let (token, cursor) = take_one(cursor, Choice::Attribute)?;
        return Ok((ExprTree::Attribute(name, attr_of(&token.kind)), cursor));
    }
    if sees(cursor, Terminal::Mark(Mark::Dot)) {
        let (_, cursor) = take(cursor, Terminal::Mark(Mark::Dot))?;
        let (member, cursor) = take_name(alloc, cursor)?;
        return Ok((ExprTree::Member(name, member), cursor));
    }
    Ok((ExprTree::Name(name), cursor))
}

/// NUM | "(" expr ")" | "not" factor | name [("'" attr) | ("." NAME)]
#[cycle(expression)]
fn factor<'t>(alloc: Global, cursor: Cursor<'t>) -> Result<(ExprTree, Cursor<'t>), Fault>
    ensures { Reads (rule factor) (after factor_more) IsFactor cursor.entry result }
{
    if sees(cursor, Terminal::Number) {
        let (token, cursor) = take(cursor, Terminal::Number)?;
        return Ok((number_tree(token), cursor));
    }
    if sees(cursor, Terminal::Mark(Mark::ParenLeft)) {
        let (_, cursor) = take(cursor, Terminal::Mark(Mark::ParenLeft))?;
        let (tree, cursor) = expr(alloc, cursor)?;
        let (_, cursor) = take(cursor, Terminal::Mark(Mark::ParenRight))?;
        return Ok((tree, cursor));
    }
    if sees(cursor, Terminal::Keyword(Keyword::Not)) {
        let (token, cursor) = take(cursor, Terminal::Keyword(Keyword::Not))?;
        let (part, cursor) = factor(alloc, cursor)?;
        let node = negation(alloc, token, part)?;
        return Ok((node, cursor));
    }
    let (name, cursor) = operand(alloc, cursor)?;
    Ok((name, cursor))
}

/// factor ["**" factor]
#[cycle(expression)]
fn power<'t>(alloc: Global, cursor: Cursor<'t>) -> Result<(ExprTree, Cursor<'t>), Fault>
    ensures { Reads (rule power) (after power_more) IsPower cursor.entry result }
{
    let (left, cursor) = factor(alloc, cursor)?;
    if !sees(cursor, Terminal::Mark(Mark::DoubleStar)) {
        return Ok((left, cursor));
    }
    let (token, cursor) = take(cursor, Terminal::Mark(Mark::DoubleStar))?;
    let (right, cursor) = factor(alloc, cursor)?;
    let node = binary(alloc, token, left, right)?;
    Ok((node, cursor))
}

/// power {("*" | "/" | "mod") power}
#[cycle(expression)]
fn product<'t>(alloc: Global, start: Cursor<'t>) -> Result<(ExprTree, Cursor<'t>), Fault>
    ensures { Reads (rule product) (after product_more) IsProduct start.entry result }
{
    let (first, behind) = power(alloc, start)?;
    let mut tree = first;
    let mut cursor = behind;
    'operators: while sees_one(cursor, Choice::Multiplying) {
        let (token, behind) = take_one(cursor, Choice::Multiplying)?;
        let (right, behind) = power(alloc, behind)?;
        tree = binary(alloc, token, tree, right)?;
        cursor = behind;
    }
    Ok((tree, cursor))
}

/// ["-"] product
#[cycle(expression)]
fn signed<'t>(alloc: Global, cursor: Cursor<'t>) -> Result<(ExprTree, Cursor<'t>), Fault>
    ensures { Reads signed (after product_more) IsSigned cursor.entry result }
{
    if !sees(cursor, Terminal::Mark(Mark::Minus)) {
        let (tree, cursor) = product(alloc, cursor)?;
        return Ok((tree, cursor));
    }
    let (token, cursor) = take(cursor, Terminal::Mark(Mark::Minus))?;
    let (part, cursor) = product(alloc, cursor)?;
    let node = negative(alloc, token, part)?;
    Ok((node, cursor))
}

/// ["-"] product {("+" | "-") product}
#[cycle(expression)]
fn sum<'t>(alloc: Global, start: Cursor<'t>) -> Result<(ExprTree, Cursor<'t>), Fault>
    ensures { Reads (rule sum) (after sum_more) IsSum start.entry result }
{
    let (first, behind) = signed(alloc, start)?;
    let mut tree = first;
    let mut cursor = behind;
    'operators: while sees_one(cursor, Choice::Sign) {
        let (token, behind) = take_one(cursor, Choice::Sign)?;
        let (right, behind) = product(alloc, behind)?;
        tree = binary(alloc, token, tree, right)?;
        cursor = behind;
    }
    Ok((tree, cursor))
}

/// sum [("=" | "/=" | "<" | "<=" | ">" | ">=") sum]
#[cycle(expression)]
fn rel<'t>(alloc: Global, cursor: Cursor<'t>) -> Result<(ExprTree, Cursor<'t>), Fault>
    ensures { Reads (rule rel) (after rel_more) IsRel cursor.entry result }
{
    let (left, cursor) = sum(alloc, cursor)?;
    if !sees_one(cursor, Choice::Relation) {
        return Ok((left, cursor));
    }
    let (token, cursor) = take_one(cursor, Choice::Relation)?;
    let (right, cursor) = sum(alloc, cursor)?;
    let node = binary(alloc, token, left, right)?;
    Ok((node, cursor))
}

/// rel {"and" rel}
#[cycle(expression)]
fn conj<'t>(alloc: Global, start: Cursor<'t>) -> Result<(ExprTree, Cursor<'t>), Fault>
    ensures { Reads (rule conj) (after conj_more) IsConj start.entry result }
{
    let (first, behind) = rel(alloc, start)?;
    let mut tree = first;
    let mut cursor = behind;
    'operators: while sees(cursor, Terminal::Keyword(Keyword::And)) {
        let (token, behind) = take(cursor, Terminal::Keyword(Keyword::And))?;
        let (right, behind) = rel(alloc, behind)?;
        tree = binary(alloc, token, tree, right)?;
        cursor = behind;
    }
    Ok((tree, cursor))
}

/// conj {"or" conj}
#[cycle(expression)]
pub fn expr<'t>(alloc: Global, start: Cursor<'t>) -> Result<(ExprTree, Cursor<'t>), Fault>
    ensures { Reads (rule expr) (after expr_more) IsExpr start.entry result }
{
    let (first, behind) = conj(alloc, start)?;
    let mut tree = first;
    let mut cursor = behind;
    'operators: while sees(cursor, Terminal::Keyword(Keyword::Or)) {
        let (token, behind) = take(cursor, Terminal::Keyword(Keyword::Or))?;
        let (right, behind) = conj(alloc, behind)?;
        tree = binary(alloc, token, tree, right)?;
        cursor = behind;
    }
    Ok((tree, cursor))
}
