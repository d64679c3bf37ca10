//! The forms of a path, gathered link by link.

ghost use Rattle.std.specs.Prelude.{◌≡◌, ◌<◌, ◌≤◌, ◌^◌, ◌++◌, ◌∷◌, [], true, false, IfErr, OnOk};
ghost use Rattle.rx_types.specs.Tree.{tree_of};
ghost use Rattle.rx_types.specs.Narrow.{IsNarrow};
ghost use Rattle.rx_graph.specs.declared.message.Node.TheVariants.{At};
ghost use Rattle.rx_graph.specs.Graph.{arrow_of, type_of};
ghost use Rattle.rx_forms.specs.Linear.{plus};
ghost use Rattle.rx_forms.specs.Normal.{IsCondition};
ghost use Rattle.rx_forms.specs.Limits.{is_low, is_within};
ghost use Rattle.rx_forms.specs.Steps.{scalars_in};
ghost use Rattle.rx_forms.specs.Links.{IsFormable, IsNarrowLink};
ghost use Rattle.rx_forms.specs.Expressions.{number_at};
ghost use Rattle.rx_forms.specs.Code.{number_by, formed, formed_all, limits};
ghost use Rattle.rx_forms.specs.Fronts.{Gathers, front_of, first_front, after_field, after_place, after_end, after_link, place_within, link_within};

use crate::arithmetic::copy;
use crate::aspect::{first_form, low_sum, size_form};
use crate::condition::condition_form;
use crate::fault::FormFault;
use crate::field::FieldForms;
use crate::linear::{Form, Linear};
use crate::work::Work;
use rx_graph::{Elaborated, Link};
use rx_types::FieldId;
use sqlite_items::Items;
use std::alloc::{AllocError, Global};

/// What stands behind some links of a path: the fields, the number of the next scalar's variable, and what was gathered.
#[derive(Drop)]
pub struct Builder {
    pub fields: Vec<FieldForms>,
    pub scalar: usize,
    pub work: Work,
    pub firsts: Items<Linear>,
    pub sizes: Items<Linear>,
    pub conditions: Items<Form>,
}

/// What stands before the links of a path with so many scalars.
pub fn start(alloc: Global, scalars: usize) -> Builder
    requires few { scalars < 190 }
    ensures { front_of result ≡ first_front scalars }
{
    Builder {
        fields: Vec::new(alloc),
        scalar: 1,
        work: Work {
            next: 1 + scalars,
            rows: Items::new(alloc),
        },
        firsts: Items::new(alloc),
        sizes: Items::new(alloc),
        conditions: Items::new(alloc),
    }
}

// The variable of a field's number, if it is a scalar.
fn variable_at(message: &Elaborated<'_>, field: FieldId, scalar: usize) -> Option<usize>
    ensures { number_by result ≡ number_at (type_of message.now.domains message.now.graph field) scalar }
{
    match message.scalar(field) {
        Some(_) => Some(scalar),
        None => None,
    }
}

/// 1 where a field is a scalar, else 0.
pub fn scalars_in(message: &Elaborated<'_>, field: FieldId) -> usize
    ensures value { result ≡ scalars_in (type_of message.now.domains message.now.graph field) }
    ensures one { result ≤ 1 }
{
    match message.scalar(field) {
        Some(_) => 1,
        None => 0,
    }
}

// Adds a copy of a sum to the end.
fn push_copy(alloc: Global, forms: &mut Items<Linear>, form: &Linear) -> Result<(), AllocError>
    ensures { OnOk result (forms.new ≡ forms.old ++ form.now ∷ []) }
{
    let form = copy(alloc, form)?;
    forms.push(form)
}

// Keeps where a field begins and how long it is.
fn keep_place(
    alloc: Global,
    firsts: &mut Items<Linear>,
    sizes: &mut Items<Linear>,
    first: &Linear,
    size: &Linear,
) -> Result<(), AllocError>
    ensures firsts { OnOk result (firsts.new ≡ firsts.old ++ first.now ∷ []) }
    ensures sizes { OnOk result (sizes.new ≡ sizes.old ++ size.now ∷ []) }
{
    push_copy(alloc, firsts, first)?;
    push_copy(alloc, sizes, size)
}

// Adds a field with its sums to the end.
fn push_field(fields: &mut Vec<FieldForms>, field: FieldForms) -> Result<(), AllocError>
    ensures { OnOk result (formed_all fields.new.items ≡ formed_all fields.old.items ++ formed field ∷ []) }
{
    fields.push(field)?;
    Ok(())
}

// Adds a field with its First and its Size to what was gathered.
#[tactic(none)]
fn add_field(
    alloc: Global,
    field: FieldId,
    first: Linear,
    size: Linear,
    message: &Elaborated<'_>,
    builder: &mut Builder,
) -> Result<(), FormFault>
    requires small { builder.old.scalar < 2 ^ 32 }
    ensures { Gathers result (front_of builder.new) (after_field (type_of message.now.domains message.now.graph field) field first size (front_of builder.old)) (is_low (plus first size)) }
{
    let end = low_sum(alloc, &first, &size)?;
    keep_place(
        alloc,
        &mut builder.firsts,
        &mut builder.sizes,
        &first,
        &size,
    )?;
    let variable = variable_at(message, field, builder.scalar);
    let forms = FieldForms {
        field,
        first,
        size,
        end,
        variable,
    };
    push_field(&mut builder.fields, forms)?;
    builder.scalar += scalars_in(message, field);
    Ok(())
}

// Gathers the First and the Size of a link into a field, behind its condition.
#[tactic(none)]
fn place(
    alloc: Global,
    link: &Link,
    field: FieldId,
    message: &Elaborated<'_>,
    builder: &mut Builder,
) -> Result<(), FormFault>
    requires formable { IsFormable (limits message.now) (arrow_of link.now) }
    requires narrow { IsNarrowLink (limits message.now) (arrow_of link.now) }
    requires target { link.now.target ≡ At field }
    requires small { builder.old.scalar < 2 ^ 32 }
    requires room { builder.old.work.next ≤ 190 }
    ensures { Gathers result (front_of builder.new) (after_place message.now.domains message.now.graph (type_of message.now.domains message.now.graph field) (front_of builder.old) (arrow_of link.now)) (place_within (type_of message.now.domains message.now.graph field) (front_of builder.old) (arrow_of link.now)) }
{
    let first = first_form(
        alloc,
        &link.first,
        message,
        builder.fields.as_slice(),
        &mut builder.work,
    )?;
    let size = size_form(
        alloc,
        field,
        &link.size,
        &first,
        message,
        builder.fields.as_slice(),
        &mut builder.work,
    )?;
    add_field(alloc, field, first, size, message, builder)
}

/// Gathers the condition of a link, where the fields end.
#[tactic(none)]
pub fn add_condition(
    alloc: Global,
    link: &Link,
    message: &Elaborated<'_>,
    builder: &mut Builder,
) -> Result<(), FormFault>
    requires condition { IsCondition (limits message.now) (tree_of link.now.condition) }
    requires narrow { IsNarrow (limits message.now) (tree_of link.now.condition) }
    requires room { builder.old.work.next ≤ 190 }
    ensures { Gathers result (front_of builder.new) (after_end message.now.domains message.now.graph (front_of builder.old) (arrow_of link.now)) (is_within (formed_all builder.old.fields.items) builder.old.work.next (tree_of link.now.condition)) }
{
    let fact = condition_form(
        alloc,
        &link.condition,
        true,
        message,
        builder.fields.as_slice(),
        &mut builder.work,
    )?;
    builder.conditions.push(fact)?;
    Ok(())
}

/// Gathers a link into a field.
#[tactic(none)]
pub fn add_link(
    alloc: Global,
    link: &Link,
    field: FieldId,
    message: &Elaborated<'_>,
    builder: &mut Builder,
) -> Result<(), FormFault>
    requires formable { IsFormable (limits message.now) (arrow_of link.now) }
    requires narrow { IsNarrowLink (limits message.now) (arrow_of link.now) }
    requires target { link.now.target ≡ At field }
    requires small { builder.old.scalar < 2 ^ 32 }
    requires room { builder.old.work.next ≤ 190 }
    ensures { Gathers result (front_of builder.new) (after_link message.now.domains message.now.graph (front_of builder.old) (arrow_of link.now)) (link_within message.now.domains message.now.graph (front_of builder.old) (arrow_of link.now)) }
{
    add_condition(alloc, link, message, builder)?;
    place(alloc, link, field, message, builder)
}
