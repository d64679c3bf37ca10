//! The First and the Size of a link into a field.

ghost use Rattle.std.specs.Prelude.{◌≡◌, ◌≤◌, pos, true, false, IfOk, IfErr, OnOk, None, Some};
ghost use Rattle.rx_types.specs.Tree.{tree_of, tree_if_any};
ghost use Rattle.rx_graph.specs.Graph.{type_of};
ghost use Rattle.rx_forms.specs.Linear.{constant, plus, minus};
ghost use Rattle.rx_forms.specs.Normal.{bits, linear, IsNumeric};
ghost use Rattle.rx_types.specs.Narrow.{IsNarrow};
ghost use Rattle.rx_forms.specs.Steps.{end_form, form_or, size_aspect};
ghost use Rattle.rx_forms.specs.Links.{IsNumericIfAny, IsNarrowIfAny};
ghost use Rattle.rx_forms.specs.Limits.{is_low};
ghost use Rattle.rx_forms.specs.Expressions.{HasAspect, aspect_within, size_otherwise};
ghost use Rattle.rx_forms.specs.Code.{formed_all, limits};

use crate::arithmetic::{constant, copy, minus, plus};
use crate::fault::FormFault;
use crate::field::FieldForms;
use crate::limit::keep_low;
use crate::linear::Linear;
use crate::number::{bits, number_form};
use crate::work::Work;
use rx_graph::Elaborated;
use rx_types::{Expr, FieldId};
use std::alloc::{AllocError, Global};

// The end of the last field, 0 where there is none.
fn end_form(alloc: Global, fields: &[FieldForms]) -> Result<Linear, AllocError>
    ensures { IfOk result (λ f. f ≡ end_form (formed_all fields.now)) }
{
    match fields.last() {
        Some(last) => copy(alloc, &last.end),
        None => Ok(constant(alloc, 0)),
    }
}

// The end of the last field, which has to be low.
fn low_end(alloc: Global, fields: &[FieldForms]) -> Result<Linear, FormFault>
    ensures value { IfOk result (λ f. f ≡ end_form (formed_all fields.now)) }
    ensures low { OnOk result (is_low (end_form (formed_all fields.now)) ≡ true) }
    ensures limit { IfErr result (λ e. e ≡ FormFault.PathLimit → is_low (end_form (formed_all fields.now)) ≡ false) }
{
    let end = end_form(alloc, fields)?;
    keep_low(&end)?;
    Ok(end)
}

// The rest of the message behind a First.
fn rest(alloc: Global, first: &Linear) -> Result<Linear, FormFault>
    ensures value { IfOk result (λ f. f ≡ minus bits first.now) }
    ensures limit { IfErr result (λ e. e ≡ FormFault.PathLimit → is_low (minus bits first.now) ≡ false) }
{
    let length = bits(alloc)?;
    minus(alloc, &length, first)
}

// The rest of the message behind a First, which has to be low.
fn low_rest(alloc: Global, first: &Linear) -> Result<Linear, FormFault>
    ensures value { IfOk result (λ f. f ≡ minus bits first.now) }
    ensures low { OnOk result (is_low (minus bits first.now) ≡ true) }
    ensures limit { IfErr result (λ e. e ≡ FormFault.PathLimit → is_low (minus bits first.now) ≡ false) }
{
    let rest = rest(alloc, first)?;
    keep_low(&rest)?;
    Ok(rest)
}

/// The sum of two, which has to be low.
pub fn low_sum(alloc: Global, left: &Linear, right: &Linear) -> Result<Linear, FormFault>
    ensures value { IfOk result (λ f. f ≡ plus left.now right.now) }
    ensures low { OnOk result (is_low (plus left.now right.now) ≡ true) }
    ensures limit { IfErr result (λ e. e ≡ FormFault.PathLimit → is_low (plus left.now right.now) ≡ false) }
{
    let sum = plus(alloc, left, right)?;
    keep_low(&sum)?;
    Ok(sum)
}

// The size of a scalar in bits, which is low.
fn fixed(alloc: Global, size: u8) -> Result<Linear, FormFault>
    ensures value { IfOk result (λ f. f ≡ constant (pos size)) }
    ensures low { OnOk result (is_low (constant (pos size)) ≡ true) }
    ensures limit { IfErr result (λ e. e ≡ FormFault.PathLimit → is_low (constant (pos size)) ≡ false) }
{
    let size = constant(alloc, size as i128);
    keep_low(&size)?;
    Ok(size)
}

// The sum that an aspect says, which has to be low.
#[tactic(none)]
fn said(
    alloc: Global,
    expr: &Expr,
    message: &Elaborated<'_>,
    fields: &[FieldForms],
    work: &mut Work,
) -> Result<Linear, FormFault>
    requires numeric { IsNumeric (tree_of expr.now) }
    requires narrow { IsNarrow (limits message.now) (tree_of expr.now) }
    requires room { work.old.next ≤ 190 }
    ensures aspect { IfOk result (λ f. (otherwise : Linear) → HasAspect (limits message.now) (formed_all fields.now) (Some (tree_of expr.now)) otherwise work.old work.new f) }
    ensures limit { IfErr result (λ e. e ≡ FormFault.PathLimit → aspect_within (formed_all fields.now) work.old.next (Some (tree_of expr.now)) (linear (formed_all fields.now) work.old.next (tree_of expr.now)) ≡ false) }
{
    let form = number_form(alloc, expr, message, fields, work)?;
    keep_low(&form)?;
    Ok(form)
}

/// Where a field begins: where its link says so, else at the end of the field before.
#[tactic(none)]
pub fn first_form(
    alloc: Global,
    first: &Option<Expr>,
    message: &Elaborated<'_>,
    fields: &[FieldForms],
    work: &mut Work,
) -> Result<Linear, FormFault>
    requires numeric { IsNumericIfAny (tree_if_any first.now) }
    requires narrow { IsNarrowIfAny (limits message.now) (tree_if_any first.now) }
    requires room { work.old.next ≤ 190 }
    ensures aspect { IfOk result (λ f. HasAspect (limits message.now) (formed_all fields.now) (tree_if_any first.now) (end_form (formed_all fields.now)) work.old work.new f) }
    ensures limit { IfErr result (λ e. e ≡ FormFault.PathLimit → aspect_within (formed_all fields.now) work.old.next (tree_if_any first.now) (form_or (tree_if_any first.now) (formed_all fields.now) work.old.next (end_form (formed_all fields.now))) ≡ false) }
{
    match first {
        Some(first) => said(alloc, first, message, fields, work),
        None => low_end(alloc, fields),
    }
}

// How long a field of bytes is: what its link says, else the rest of the message.
#[tactic(none)]
fn open_size(
    alloc: Global,
    size: &Option<Expr>,
    first: &Linear,
    message: &Elaborated<'_>,
    fields: &[FieldForms],
    work: &mut Work,
) -> Result<Linear, FormFault>
    requires numeric { IsNumericIfAny (tree_if_any size.now) }
    requires narrow { IsNarrowIfAny (limits message.now) (tree_if_any size.now) }
    requires room { work.old.next ≤ 190 }
    ensures aspect { IfOk result (λ f. HasAspect (limits message.now) (formed_all fields.now) (tree_if_any size.now) (minus bits first.now) work.old work.new f) }
    ensures limit { IfErr result (λ e. e ≡ FormFault.PathLimit → aspect_within (formed_all fields.now) work.old.next (tree_if_any size.now) (form_or (tree_if_any size.now) (formed_all fields.now) work.old.next (minus bits first.now)) ≡ false) }
{
    match size {
        Some(size) => said(alloc, size, message, fields, work),
        None => low_rest(alloc, first),
    }
}

/// How long a field is: a scalar as long as its type, another one as its link says, else it is the rest of the message.
#[tactic(none)]
pub fn size_form(
    alloc: Global,
    field: FieldId,
    size: &Option<Expr>,
    first: &Linear,
    message: &Elaborated<'_>,
    fields: &[FieldForms],
    work: &mut Work,
) -> Result<Linear, FormFault>
    requires numeric { IsNumericIfAny (tree_if_any size.now) }
    requires narrow { IsNarrowIfAny (limits message.now) (tree_if_any size.now) }
    requires room { work.old.next ≤ 190 }
    ensures aspect { IfOk result (λ f. HasAspect (limits message.now) (formed_all fields.now) (size_aspect (type_of message.now.domains message.now.graph field) (tree_if_any size.now)) (size_otherwise (type_of message.now.domains message.now.graph field) first.now) work.old work.new f) }
    ensures limit { IfErr result (λ e. e ≡ FormFault.PathLimit → aspect_within (formed_all fields.now) work.old.next (size_aspect (type_of message.now.domains message.now.graph field) (tree_if_any size.now)) (form_or (size_aspect (type_of message.now.domains message.now.graph field) (tree_if_any size.now)) (formed_all fields.now) work.old.next (size_otherwise (type_of message.now.domains message.now.graph field) first.now)) ≡ false) }
{
    match message.scalar(field) {
        Some(scalar) => fixed(alloc, scalar.size()),
        None => open_size(alloc, size, first, message, fields, work),
    }
}
