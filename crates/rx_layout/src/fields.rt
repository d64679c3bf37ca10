//! Facts of the fields of a path: their types, their places and the fields below them.

ghost use Rattle.std.specs.Prelude.{◌≡◌, [], ◌∷◌, ◌++◌, map, Some, None, IfOk, OnOk};
ghost use Rattle.rx_graph.specs.Graph.{type_of};
ghost use Rattle.rx_forms.specs.Linear.{equal, minus};
ghost use Rattle.rx_forms.specs.Normal.{bits};
ghost use Rattle.rx_forms.specs.Steps.{is_among};
ghost use Rattle.rx_forms.specs.Code.{formed_all};
ghost use Rattle.rx_layout.specs.Laid.{placed, as_long, typed_field, laid_over, laid, laid_from};

use crate::laws::types_are_proper;
use crate::types::type_form;
use rx_forms::{
    FieldForms, Form, FormFault, Linear, bits, copy, minus, variable_form, variable_of,
};
use rx_graph::Elaborated;
use rx_types::FieldId;
use sqlite_items::Items;
use std::alloc::Global;

// A fact that always holds.
fn always(alloc: Global) -> Form
    ensures { result ≡ Form.All [] }
{
    Form::All(Items::new(alloc))
}

// ---- types

// The fact that a field has a number of its type.
fn field_type(
    alloc: Global,
    field: &FieldForms,
    message: &Elaborated<'_>,
) -> Result<Form, FormFault>
    ensures { IfOk result (λ f. f ≡ typed_field message.now.domains message.now.graph field.now) }
{
    types_are_proper(message);
    let Some(scalar) = message.scalar(field.field) else {
        return Ok(always(alloc));
    };
    match field.variable {
        Some(variable) => type_form(alloc, scalar, variable),
        None => Ok(always(alloc)),
    }
}

/// Adds that each field has a number of its type.
pub fn add_types(
    alloc: Global,
    fields: &[FieldForms],
    message: &Elaborated<'_>,
    forms: &mut Items<Form>,
) -> Result<(), FormFault>
    ensures { OnOk result (forms.new ≡ forms.old ++ map (typed_field message.now.domains message.now.graph) fields.now) }
{
    for field in fields {
        let form = field_type(alloc, field, message)?;
        forms.push(form)?;
    }
    Ok(())
}

// ---- places

// What is left of the message behind a field.
fn rest(alloc: Global, first: &Linear, size: &Linear) -> Result<Linear, FormFault>
    ensures { IfOk result (λ f. f ≡ minus (minus bits first.now) size.now) }
{
    let length = bits(alloc)?;
    let left = minus(alloc, &length, first)?;
    minus(alloc, &left, size)
}

// Adds that a sum is at least 0.
fn push_row(forms: &mut Items<Form>, row: Linear) -> Result<(), FormFault>
    ensures { OnOk result (forms.new ≡ forms.old ++ Form.AtLeast row ∷ []) }
{
    forms.push(Form::AtLeast(row))?;
    Ok(())
}

// The fact that a field lies within the message.
fn place(alloc: Global, field: &FieldForms) -> Result<Form, FormFault>
    ensures { IfOk result (λ f. f ≡ placed field.now) }
{
    let mut forms = Items::new(alloc);
    let first = copy(alloc, &field.first)?;
    push_row(&mut forms, first)?;
    let size = copy(alloc, &field.size)?;
    push_row(&mut forms, size)?;
    let rest = rest(alloc, &field.first, &field.size)?;
    push_row(&mut forms, rest)?;
    Ok(Form::All(forms))
}

/// Adds that each field lies within the message.
pub fn add_places(
    alloc: Global,
    fields: &[FieldForms],
    forms: &mut Items<Form>,
) -> Result<(), FormFault>
    ensures { OnOk result (forms.new ≡ forms.old ++ map placed fields.now) }
{
    for field in fields {
        let form = place(alloc, field)?;
        forms.push(form)?;
    }
    Ok(())
}

/// A fact for each of some sums, that it is at least 0.
pub fn row_facts(alloc: Global, sums: &[Linear]) -> Result<Items<Form>, FormFault>
    ensures { IfOk result (λ facts. facts ≡ map (λ f. Form.AtLeast f) sums.now) }
{
    let mut facts = Items::new(alloc);
    for sum in sums {
        let row = copy(alloc, sum)?;
        push_row(&mut facts, row)?;
    }
    Ok(facts)
}

// ---- overlays

// Whether a field is among these.
fn is_among(field: FieldId, fields: &[FieldForms]) -> bool
    ensures { result ≡ is_among field (formed_all fields.now) }
{
    for other in fields {
        if other.field == field {
            return true;
        }
    }
    false
}

// Two sums are the same.
fn equal(alloc: Global, left: &Linear, right: &Linear) -> Result<Form, FormFault>
    ensures { IfOk result (λ f. f ≡ equal left.now right.now) }
{
    let mut forms = Items::new(alloc);
    let difference = minus(alloc, left, right)?;
    push_row(&mut forms, difference)?;
    let opposite = minus(alloc, right, left)?;
    push_row(&mut forms, opposite)?;
    Ok(Form::All(forms))
}

// Whether a field is a scalar, and has the size of another one that is a scalar too.
fn is_as_long(field: FieldId, other: FieldId, message: &Elaborated<'_>) -> bool
    ensures { result ≡ as_long (type_of message.now.domains message.now.graph field) (type_of message.now.domains message.now.graph other) }
{
    let Some(scalar) = message.scalar(field) else {
        return false;
    };
    match message.scalar(other) {
        Some(below) => scalar.size() == below.size(),
        None => false,
    }
}

// A field over another one.
fn lay_over(
    alloc: Global,
    field: &FieldForms,
    below: FieldId,
    before: &[FieldForms],
    message: &Elaborated<'_>,
) -> Result<Form, FormFault>
    ensures { IfOk result (λ f. f ≡ laid_over message.now.domains message.now.graph (Some below) before.now field.now) }
{
    if !is_as_long(field.field, below, message) || !is_among(below, before) {
        return Ok(always(alloc));
    }
    let number = variable_form(alloc, field.variable)?;
    let other = variable_form(alloc, variable_of(before, below))?;
    equal(alloc, &number, &other)
}

// A field over the one below it, if there is one.
fn lay(
    alloc: Global,
    field: &FieldForms,
    before: &[FieldForms],
    message: &Elaborated<'_>,
) -> Result<Form, FormFault>
    ensures { IfOk result (λ f. f ≡ laid message.now.domains message.now.graph before.now field.now) }
{
    match message.overlay(field.field) {
        Some(below) => lay_over(alloc, field, below, before, message),
        None => Ok(always(alloc)),
    }
}

/// Adds that each scalar over a scalar of its size that stands before has that one's number.
pub fn add_overlays(
    alloc: Global,
    fields: &[FieldForms],
    message: &Elaborated<'_>,
    forms: &mut Items<Form>,
) -> Result<(), FormFault>
    ensures { OnOk result (forms.new ≡ forms.old ++ laid_from message.now.domains message.now.graph [] fields.now) }
{
    for place in 0..fields.len() {
        let form = lay(alloc, &fields[place], &fields[..place], message)?;
        forms.push(form)?;
    }
    Ok(())
}
