//! The facts of expressions that are conditions.

ghost use Rattle.std.specs.Prelude.{◌≡◌, ℕ, ◌≤◌, pos, true, false, IfOk, IfErr, OnOk};
ghost use Rattle.rx_types.specs.Tree.{tree_of};
ghost use Rattle.rx_types.specs.Value.{truth_value};
ghost use Rattle.rx_types.specs.Narrow.{IsNarrow};
ghost use Rattle.rx_forms.specs.declared.linear.Form.{AtLeast};
ghost use Rattle.rx_forms.specs.Linear.{constant, minus, less_one, equal};
ghost use Rattle.rx_forms.specs.Normal.{formed_of, agree, joined, settled, condition, IsNumeric, IsCondition};
ghost use Rattle.rx_forms.specs.Limits.{is_low, all_kept, differences, is_within, sides_within};
ghost use Rattle.rx_forms.specs.Expressions.{IsTruth, multiple, by_differences, spelled_in, agreed, takes_all, HasComparison, HasFact};
ghost use Rattle.rx_forms.specs.Code.{number_by, formed_all, limits};

use crate::arithmetic::{constant, minus, one_less, term};
use crate::entry::variable_of;
use crate::fault::FormFault;
use crate::field::FieldForms;
use crate::limit::keep_low;
use crate::linear::{Form, Linear};
use crate::number::number_form;
use crate::work::Work;
use rx_graph::Elaborated;
use rx_types::{Expr, FieldId, Operator};
use sqlite_items::Items;
use std::alloc::{AllocError, Global};

// All of two facts, or one of them.
fn pair(alloc: Global, all: bool, left: Form, right: Form) -> Result<Form, AllocError>
    ensures { IfOk result (λ f. f ≡ joined all left right) }
{
    let parts = vec![in alloc; left, right]?;
    let parts = Items::from_vec(parts);
    Ok(if all {
        Form::All(parts)
    } else {
        Form::Any(parts)
    })
}

// Always, or never.
fn settled(alloc: Global, truth: bool) -> Form
    ensures { result ≡ settled truth }
{
    let parts = Items::new(alloc);
    if truth {
        Form::All(parts)
    } else {
        Form::Any(parts)
    }
}

// Whether the answer is the one that is wanted.
fn agree(wanted: bool, truth: bool) -> bool
    ensures { result ≡ agree wanted truth }
{
    wanted == truth
}

fn multiple(
    alloc: Global,
    times: i128,
    variable: Option<usize>,
    number: i128,
) -> Result<Linear, AllocError>
    ensures { IfOk result (λ f. f ≡ multiple times variable number) }
{
    match variable {
        Some(variable) => term(alloc, times, variable, number),
        None => Ok(constant(alloc, number)),
    }
}

// The number is 1.
fn is_true(alloc: Global, variable: Option<usize>) -> Result<Form, AllocError>
    ensures { IfOk result (λ f. f ≡ equal (number_by variable) (constant (pos 1))) }
{
    let least = multiple(alloc, 1, variable, -1)?;
    let most = multiple(alloc, -1, variable, 1)?;
    pair(alloc, true, Form::AtLeast(least), Form::AtLeast(most))
}

// The number is 0.
fn is_false(alloc: Global, variable: Option<usize>) -> Result<Form, AllocError>
    ensures { IfOk result (λ f. f ≡ equal (number_by variable) (constant (pos 0))) }
{
    let least = multiple(alloc, 1, variable, 0)?;
    let most = multiple(alloc, -1, variable, 0)?;
    pair(alloc, true, Form::AtLeast(least), Form::AtLeast(most))
}

// The field is true, or false.
fn field_fact(
    alloc: Global,
    fields: &[FieldForms],
    field: FieldId,
    wanted: bool,
) -> Result<Form, AllocError>
    ensures { IfOk result (λ f. f ≡ equal (formed_of field (formed_all fields.now)).number (constant (truth_value wanted))) }
{
    let variable = variable_of(fields, field);
    if wanted {
        is_true(alloc, variable)
    } else {
        is_false(alloc, variable)
    }
}

// The difference of two sums, which has to be low.
fn low_difference(alloc: Global, left: &Linear, right: &Linear) -> Result<Linear, FormFault>
    ensures value { IfOk result (λ f. f ≡ minus left.now right.now) }
    ensures low { OnOk result (is_low (minus left.now right.now) ≡ true) }
    ensures limit { IfErr result (λ e. e ≡ FormFault.PathLimit → is_low (minus left.now right.now) ≡ false) }
{
    let difference = minus(alloc, left, right)?;
    keep_low(&difference)?;
    Ok(difference)
}

// A sum is above 0, or another is at least 0.
fn above_or(strict: bool, above: Linear, otherwise: Linear) -> Form
    requires low { is_low above ≡ true }
    ensures above { strict ≡ true → result ≡ AtLeast (less_one above) }
    ensures otherwise { strict ≡ false → result ≡ AtLeast otherwise }
{
    if strict {
        Form::AtLeast(one_less(above))
    } else {
        Form::AtLeast(otherwise)
    }
}

// Both differences are at least 0, or one is above 0.
fn equal_or(
    alloc: Global,
    wanted: bool,
    difference: Linear,
    opposite: Linear,
) -> Result<Form, AllocError>
    requires low { is_low difference ≡ true }
    requires opposite { is_low opposite ≡ true }
    ensures { IfOk result (λ f. f ≡ by_differences Operator.Equal wanted difference opposite) }
{
    if wanted {
        pair(
            alloc,
            true,
            Form::AtLeast(difference),
            Form::AtLeast(opposite),
        )
    } else {
        let less = Form::AtLeast(one_less(opposite));
        let greater = Form::AtLeast(one_less(difference));
        pair(alloc, false, less, greater)
    }
}

// A comparison, by the difference of its sides and the opposite one.
fn by_differences(
    alloc: Global,
    operator: Operator,
    wanted: bool,
    difference: Linear,
    opposite: Linear,
) -> Result<Form, AllocError>
    requires low { is_low difference ≡ true }
    requires opposite { is_low opposite ≡ true }
    ensures { IfOk result (λ f. f ≡ by_differences operator wanted difference opposite) }
{
    match operator {
        Operator::Equal => equal_or(alloc, wanted, difference, opposite),
        Operator::NotEqual => equal_or(alloc, !wanted, difference, opposite),
        Operator::Less => Ok(above_or(wanted, opposite, difference)),
        Operator::LessEqual => Ok(above_or(!wanted, difference, opposite)),
        Operator::Greater => Ok(above_or(wanted, difference, opposite)),
        Operator::GreaterEqual => Ok(above_or(!wanted, opposite, difference)),
        _ => Ok(settled(alloc, false)),
    }
}

// A comparison of two sums.
fn comparison(
    alloc: Global,
    operator: Operator,
    wanted: bool,
    left: &Linear,
    right: &Linear,
) -> Result<Form, FormFault>
    ensures value { IfOk result (λ f. f ≡ by_differences operator wanted (minus left.now right.now) (minus right.now left.now)) }
    ensures kept { OnOk result (all_kept (differences left.now right.now) ≡ true) }
    ensures limit { IfErr result (λ e. e ≡ FormFault.PathLimit → all_kept (differences left.now right.now) ≡ false) }
{
    let difference = low_difference(alloc, left, right)?;
    let opposite = low_difference(alloc, right, left)?;
    Ok(by_differences(alloc, operator, wanted, difference, opposite)?)
}

// The truth value that an operand spells out, where the operator tests for equality.
fn spelled_in(operator: Operator, expr: &Expr) -> Option<bool>
    ensures { result ≡ spelled_in operator (tree_of expr.now) }
{
    match (operator, expr) {
        (Operator::Equal | Operator::NotEqual, Expr::Truth(truth)) => Some(*truth),
        _ => None,
    }
}

// Which answer of the other side is wanted, where one side is spelled.
fn agreed(operator: Operator, wanted: bool, truth: bool) -> bool
    ensures { result ≡ agreed operator wanted truth }
{
    match operator {
        Operator::NotEqual => agree(!wanted, truth),
        _ => agree(wanted, truth),
    }
}

// Whether the fact of `and` or `or` is all of the operands' facts.
fn takes_all(operator: Operator, wanted: bool) -> bool
    ensures { result ≡ takes_all operator wanted }
{
    match operator {
        Operator::Or => !wanted,
        _ => wanted,
    }
}

// The fact of a condition with no operands.
fn leaf_fact(
    alloc: Global,
    expr: &Expr,
    wanted: bool,
    fields: &[FieldForms],
) -> Result<Form, AllocError>
    requires leaf { IsTruth (tree_of expr.now) }
    ensures { IfOk result (λ f. (n : ℕ) → f ≡ condition (formed_all fields.now) n wanted (tree_of expr.now)) }
{
    match expr {
        Expr::Truth(truth) => Ok(settled(alloc, agree(wanted, *truth))),
        Expr::Field(field) => field_fact(alloc, fields, *field, wanted),
        _ => unreachable!(),
    }
}

// A comparison of two numbers.
#[tactic(none)]
fn compared(
    alloc: Global,
    operator: Operator,
    wanted: bool,
    left: &Expr,
    right: &Expr,
    message: &Elaborated<'_>,
    fields: &[FieldForms],
    work: &mut Work,
) -> Result<Form, FormFault>
    requires left { IsNumeric (tree_of left.now) × IsNarrow (limits message.now) (tree_of left.now) }
    requires right { IsNumeric (tree_of right.now) × IsNarrow (limits message.now) (tree_of right.now) }
    requires room { work.old.next ≤ 190 }
    ensures fact { IfOk result (λ f. HasComparison (limits message.now) (formed_all fields.now) operator wanted (tree_of left.now) (tree_of right.now) work.old work.new f) }
    ensures limit { IfErr result (λ e. e ≡ FormFault.PathLimit → sides_within (formed_all fields.now) work.old.next (tree_of left.now) (tree_of right.now) ≡ false) }
{
    let left = number_form(alloc, left, message, fields, work)?;
    let right = number_form(alloc, right, message, fields, work)?;
    comparison(alloc, operator, wanted, &left, &right)
}

/// The fact of an expression that is a condition, or that of its negation. Its divisions come behind those before.
#[tactic(none)]
pub fn condition_form(
    alloc: Global,
    expr: &Expr,
    wanted: bool,
    message: &Elaborated<'_>,
    fields: &[FieldForms],
    work: &mut Work,
) -> Result<Form, FormFault>
    requires condition { IsCondition (limits message.now) (tree_of expr.now) }
    requires narrow { IsNarrow (limits message.now) (tree_of expr.now) }
    requires room { work.old.next ≤ 190 }
    ensures fact { IfOk result (λ f. HasFact (limits message.now) (formed_all fields.now) wanted (tree_of expr.now) work.old work.new f) }
    ensures limit { IfErr result (λ e. e ≡ FormFault.PathLimit → is_within (formed_all fields.now) work.old.next (tree_of expr.now) ≡ false) }
{
    match expr {
        Expr::Not(part) => condition_form(alloc, part, !wanted, message, fields, work),
        Expr::Binary(operator, left, right) => match operator {
            Operator::And | Operator::Or => {
                let left = condition_form(alloc, left, wanted, message, fields, work)?;
                let right = condition_form(alloc, right, wanted, message, fields, work)?;
                let all = takes_all(*operator, wanted);
                Ok(pair(alloc, all, left, right)?)
            }
            _ => {
                if let Some(truth) = spelled_in(*operator, left) {
                    let wanted = agreed(*operator, wanted, truth);
                    return condition_form(alloc, right, wanted, message, fields, work);
                }
                if let Some(truth) = spelled_in(*operator, right) {
                    let wanted = agreed(*operator, wanted, truth);
                    return condition_form(alloc, left, wanted, message, fields, work);
                }
                compared(alloc, *operator, wanted, left, right, message, fields, work)
            }
        },
        _ => Ok(leaf_fact(alloc, expr, wanted, fields)?),
    }
}
