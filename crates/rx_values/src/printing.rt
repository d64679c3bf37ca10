//! Valuations, printed as JSON.

ghost use Rattle.std.specs.Prelude.{◌≡◌, IfOk, option_map, string_bytes};
ghost use Rattle.serde_json.specs.View.{view, members_view};
ghost use Rattle.rx_types.specs.Domain.{domain_of};
ghost use Rattle.rx_graph.specs.Graph.{domains_in, domains_of, graph_of};
ghost use Rattle.rx_values.specs.Valuation.{assigned, content};
ghost use Rattle.rx_values.specs.Printing.{data_of, json_text, members_of, name_of, scalar_data};

use crate::fault::NoMemory;
use crate::fields::literal_numbered;
use crate::valuation::{Valuation, Value};
use rx_graph::{Elaborated, Message, Scalar, Spec, scalar_of};
use rx_types::{FieldId, Name, ScalarType};
use serde_json::Map;
use std::alloc::{AllocError, Global};

// A name as text.
fn text_of<'a>(name: &'a Name) -> &'a str
    ensures { result.now ≡ name.entry.now }
{
    match str::from_utf8(name.bytes()) {
        Ok(text) => text,
        Err(_) => unreachable!(),
    }
}

// The name of a field, as it is declared.
fn name_of(alloc: Global, message: &Message, field: FieldId) -> Result<String, AllocError>
    ensures { IfOk result (λ s. string_bytes s ≡ name_of (graph_of message.now) field) }
{
    match message.fields.get(field as usize) {
        Some(field) => String::from_str(alloc, text_of(&field.name)),
        None => Ok(String::new(alloc)),
    }
}

// A scalar's number, or its literal.
fn scalar_data(
    alloc: Global,
    scalar: &ScalarType,
    number: u64,
) -> Result<serde_json::Value, AllocError>
    ensures { IfOk result (λ v. view v ≡ scalar_data (domain_of scalar.now) number) }
{
    let ScalarType::Enumeration { literals, .. } = scalar else {
        return Ok(serde_json::Value::from(number));
    };
    match literal_numbered(literals.as_slice(), number) {
        Some(literal) => {
            let text = String::from_str(alloc, text_of(&literal.name))?;
            Ok(serde_json::Value::String(text))
        }
        None => Ok(serde_json::Value::from(number)),
    }
}

// What a field holds, as JSON.
fn data_of(
    alloc: Global,
    scalar: Option<&ScalarType>,
    value: &Value,
) -> Result<serde_json::Value, AllocError>
    ensures { IfOk result (λ v. view v ≡ data_of (option_map (λ t. domain_of t.now) scalar.entry) (content value.now)) }
{
    match (value, scalar) {
        (Value::Number(number), Some(scalar)) => scalar_data(alloc, scalar, *number),
        (Value::Number(number), None) => Ok(serde_json::Value::from(*number)),
        (Value::Bytes(bytes), _) => {
            let text = hex::encode(alloc, bytes.as_slice())?;
            Ok(serde_json::Value::String(text))
        }
    }
}

// The members, in the order of their keys.
fn members_of(
    alloc: Global,
    message: &Message,
    scalars: &[Scalar],
    entries: &[(FieldId, Value)],
) -> Result<Map<String, serde_json::Value>, AllocError>
    ensures { IfOk result (λ m. members_view m.entries ≡ members_of (domains_in scalars.now) (graph_of message.now) (assigned entries.now)) }
{
    let mut members = Map::new(alloc);
    for entry in entries {
        let name = name_of(alloc, message, entry.0)?;
        let data = data_of(alloc, scalar_of(scalars, message, entry.0), &entry.1)?;
        members.insert(name, data)?;
    }
    Ok(members)
}

// The text of a valuation.
fn printed(
    alloc: Global,
    message: &Message,
    scalars: &[Scalar],
    valuation: &Valuation,
) -> Result<Vec<u8>, NoMemory>
    ensures { IfOk result (λ text. text.items ≡ json_text (domains_in scalars.now) (graph_of message.now) valuation.now) }
{
    let members = members_of(alloc, message, scalars, valuation.entries())?;
    let text = serde_json::Value::Object(members).to_string(alloc)?;
    Ok(text.into_bytes())
}

/// The valuation as one compact JSON object, keys in byte order.
pub fn to_json(
    alloc: Global,
    message: &Message,
    spec: &Spec,
    valuation: &Valuation,
) -> Result<Vec<u8>, NoMemory>
    ensures { IfOk result (λ text. text.items ≡ json_text (domains_of spec.now) (graph_of message.now) valuation.now) }
{
    printed(alloc, message, spec.scalars.as_slice(), valuation)
}

/// The valuation of an elaborated message as one compact JSON object, keys in byte order.
pub fn json_of(
    alloc: Global,
    message: &Elaborated<'_>,
    valuation: &Valuation,
) -> Result<Vec<u8>, NoMemory>
    ensures { IfOk result (λ text. text.items ≡ json_text message.now.domains message.now.graph valuation.now) }
{
    printed(alloc, message.message(), message.scalars(), valuation)
}
