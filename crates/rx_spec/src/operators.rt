//! The limit on the operators of an expression.

ghost use Rattle.std.specs.Prelude.{◌≡◌, ◌+◌, ◌≤◌, min, IfOk, IfErr};
ghost use Rattle.std.specs.List.{list_all};
ghost use Rattle.rx_judge.specs.Meaning.{Tells};
ghost use Rattle.rx_judge.specs.Sound.{operators_of};
ghost use Rattle.rx_spec.specs.Shape.{has_few, has_few_if_any, aspect_has_few, then_has_few, field_has_few, message_has_few, few_stand};

use rx_judge::{Fault, refused_at};
use rx_syntax::{AspectTree, ExprTree, FieldTree, MessageTree, Named, Rule, ThenTree};
use std::alloc::Global;

const MOST_OPERATORS: u32 = 256;

// One more operator than in both parts, or 257 where that is more.
fn one_more(left: u32, right: u32) -> u32
    requires left { left ≤ 257 }
    requires right { right ≤ 257 }
    ensures { result ≡ min (left + right + 1) 257 }
{
    (left + right + 1).min(MOST_OPERATORS + 1)
}

// How many operators an expression has, or 257 where it has more.
fn operators_of(tree: &ExprTree) -> u32
    ensures { result ≡ min (operators_of tree.now) 257 }
{
    match tree {
        ExprTree::Number(_, _) => 0,
        ExprTree::Name(_) => 0,
        ExprTree::Attribute(_, _) => 0,
        ExprTree::Member(_, _) => 0,
        ExprTree::Neg(_, part) => one_more(operators_of(part), 0),
        ExprTree::Not(_, part) => one_more(operators_of(part), 0),
        ExprTree::Binary(_, _, left, right) => {
            let left = operators_of(left);
            let right = operators_of(right);
            one_more(left, right)
        }
    }
}

fn has_few(tree: &ExprTree) -> bool
    ensures { result ≡ has_few tree.now }
{
    operators_of(tree) <= MOST_OPERATORS
}

fn has_few_if_any(tree: &Option<ExprTree>) -> bool
    ensures { result ≡ has_few_if_any tree.now }
{
    match tree {
        None => true,
        Some(tree) => has_few(tree),
    }
}

fn aspect_has_few(aspect: &AspectTree) -> bool
    ensures { result ≡ aspect_has_few aspect.now }
{
    match aspect {
        AspectTree::First(_, tree) => has_few(tree),
        AspectTree::Size(_, tree) => has_few(tree),
    }
}

fn aspects_have_few(aspects: &[AspectTree]) -> bool
    ensures { result ≡ list_all aspect_has_few aspects.now }
{
    aspects.iter().all(|aspect| aspect_has_few(aspect))
}

fn then_has_few(then: &ThenTree) -> bool
    ensures { result ≡ then_has_few then.now }
{
    aspects_have_few(&then.aspects) && has_few_if_any(&then.condition)
}

fn thens_have_few(thens: &[ThenTree]) -> bool
    ensures { result ≡ list_all then_has_few thens.now }
{
    thens.iter().all(|then| then_has_few(then))
}

fn field_has_few(field: &FieldTree) -> bool
    ensures { result ≡ field_has_few field.now }
{
    aspects_have_few(&field.aspects)
        && has_few_if_any(&field.condition)
        && thens_have_few(&field.thens)
}

fn fields_have_few(fields: &[FieldTree]) -> bool
    ensures { result ≡ list_all field_has_few fields.now }
{
    fields.iter().all(|field| field_has_few(field))
}

fn message_has_few(message: &MessageTree) -> bool
    ensures { result ≡ message_has_few message.now }
{
    thens_have_few(&message.start) && fields_have_few(&message.fields)
}

/// That no expression of a message has more than 256 operators; else TooDeep at the message's name.
pub(crate) fn few_stand(alloc: Global, name: &Named, message: &MessageTree) -> Result<(), Fault>
    ensures meaning { IfOk result (λ x. few_stand name.now message.now ≡ Ok x) }
    ensures refusal { IfErr result (λ e. Tells e (few_stand name.now message.now)) }
{
    if message_has_few(message) {
        return Ok(());
    }
    Err(Fault::Refused(refused_at(alloc, Rule::TooDeep, name)?))
}
