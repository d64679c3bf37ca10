//! The scalars of a path with their numbers, as a valuation.

ghost use Rattle.std.specs.Prelude.{◌≡◌, ◌<◌, ◌++◌, ◌==◌, IfOk, position, slice_get};
ghost use Rattle.std.specs.List.{AllByRecursion};
ghost use Rattle.rx_lines.specs.Subjects.{assigned_if, number_among, scalar_at, scalar_behind, scalars_of, values_along, values_from};

use crate::fault::NoMemory;
use rx_graph::{Elaborated, Node};
use rx_types::FieldId;
use rx_values::{Valuation, Value};
use std::alloc::Global;

// The node's field, if it is a scalar.
fn scalar_at(message: &Elaborated<'_>, node: Node) -> Option<FieldId>
    ensures { result ≡ scalar_at message.now.domains message.now.graph node }
{
    match node {
        Node::Start => None,
        Node::At(field) => message.is_scalar(field).then_some(field),
        Node::Null => None,
    }
}

// The field that a link leads to, if it is a scalar.
fn scalar_behind(message: &Elaborated<'_>, place: u16) -> Option<FieldId>
    ensures { result ≡ scalar_behind message.now.domains message.now.graph (slice_get message.now.graph.links place) }
{
    match message.link(place) {
        Some(link) => scalar_at(message, link.target),
        None => None,
    }
}

// The scalars of a path, in its order.
fn scalars_of(
    alloc: Global,
    message: &Elaborated<'_>,
    path: &[u16],
) -> Result<Vec<FieldId>, NoMemory>
    ensures { IfOk result (λ fields. fields.items ≡ scalars_of message.now.domains message.now.graph path.now) }
{
    let mut fields = Vec::new(alloc);
    for place in path {
        if let Some(field) = scalar_behind(message, *place) {
            fields.push(field)?;
        }
    }
    Ok(fields)
}

// The first place where the field stands.
fn place_among(field: FieldId, fields: &[FieldId]) -> Option<usize>
    ensures { result ≡ position (λ g. g == field) fields.now }
{
    fields.iter().position(|other| *other == field)
}

// The number that stands where the field stands.
fn number_among(field: FieldId, fields: &[FieldId], numbers: &[u64]) -> Option<u64>
    ensures { result ≡ number_among field fields.now numbers.now }
{
    match place_among(field, fields) {
        Some(place) => numbers.get(place).copied(),
        None => None,
    }
}

// The valuation with one field more behind those of lesser ids, if it has a number.
fn with_number(
    values: Valuation,
    field: FieldId,
    number: Option<u64>,
) -> Result<Valuation, NoMemory>
    requires { AllByRecursion (λ a. a.field < field) values }
    ensures { IfOk result (λ v. v ≡ values ++ assigned_if field number) }
{
    match number {
        Some(number) => {
            let more = values.put(field, Value::Number(number))?;
            Ok(more)
        }
        None => Ok(values),
    }
}

// The fields that have numbers, with these.
fn assign(
    alloc: Global,
    message: &Elaborated<'_>,
    fields: &[FieldId],
    numbers: &[u64],
) -> Result<Valuation, NoMemory>
    ensures { IfOk result (λ v. v ≡ values_from (λ f. number_among f fields.now numbers.now) 0 message.now.graph.fields) }
{
    let mut values = Valuation::new(alloc);
    for place in 0..message.fields().len() {
        let field = place as FieldId;
        values = with_number(values, field, number_among(field, fields, numbers))?;
    }
    Ok(values)
}

/// The scalars of a path with these numbers, as a valuation.
pub(crate) fn values_along(
    alloc: Global,
    message: &Elaborated<'_>,
    path: &[u16],
    numbers: &[u64],
) -> Result<Valuation, NoMemory>
    ensures { IfOk result (λ v. v ≡ values_along message.now.domains message.now.graph path.now numbers.now) }
{
    let fields = scalars_of(alloc, message, path)?;
    assign(alloc, message, fields.as_slice(), numbers)
}
