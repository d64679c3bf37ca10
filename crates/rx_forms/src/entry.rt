//! The sums of a field by its id.

ghost use Rattle.std.specs.Prelude.{◌≡◌, [], IfOk, IfSome, None};
ghost use Rattle.rx_forms.specs.Normal.{formed_of};
ghost use Rattle.rx_forms.specs.Code.{formed, formed_all, number_by};

use crate::arithmetic::{constant, copy, term};
use crate::field::FieldForms;
use crate::linear::Linear;
use rx_types::FieldId;
use std::alloc::{AllocError, Global};

// The field among these.
fn entry(fields: &[FieldForms], field: FieldId) -> Option<&FieldForms>
    ensures found { IfSome result (λ f. formed f.now ≡ formed_of field (formed_all fields.now)) }
    ensures none { result ≡ None → formed_of field (formed_all fields.now) ≡ formed_of field [] }
{
    for form in fields {
        if form.field == field {
            return Some(form);
        }
    }
    None
}

/// Where a field begins, 0 where it is not among these.
pub fn first_of(alloc: Global, fields: &[FieldForms], field: FieldId) -> Result<Linear, AllocError>
    ensures { IfOk result (λ f. f ≡ (formed_of field (formed_all fields.now)).first) }
{
    match entry(fields, field) {
        Some(form) => copy(alloc, &form.first),
        None => Ok(constant(alloc, 0)),
    }
}

/// How long a field is, 0 where it is not among these.
pub fn size_of(alloc: Global, fields: &[FieldForms], field: FieldId) -> Result<Linear, AllocError>
    ensures { IfOk result (λ f. f ≡ (formed_of field (formed_all fields.now)).size) }
{
    match entry(fields, field) {
        Some(form) => copy(alloc, &form.size),
        None => Ok(constant(alloc, 0)),
    }
}

/// Where a field ends, 0 where it is not among these.
pub fn end_of(alloc: Global, fields: &[FieldForms], field: FieldId) -> Result<Linear, AllocError>
    ensures { IfOk result (λ f. f ≡ (formed_of field (formed_all fields.now)).end) }
{
    match entry(fields, field) {
        Some(form) => copy(alloc, &form.end),
        None => Ok(constant(alloc, 0)),
    }
}

/// The variable of a field's number, if it is a scalar among these.
pub fn variable_of(fields: &[FieldForms], field: FieldId) -> Option<usize>
    ensures { number_by result ≡ (formed_of field (formed_all fields.now)).number }
{
    match entry(fields, field) {
        Some(form) => form.variable,
        None => None,
    }
}

/// A variable alone, 0 where there is none.
pub fn variable_form(alloc: Global, variable: Option<usize>) -> Result<Linear, AllocError>
    ensures { IfOk result (λ f. f ≡ number_by variable) }
{
    match variable {
        Some(variable) => term(alloc, 1, variable, 0),
        None => Ok(constant(alloc, 0)),
    }
}
