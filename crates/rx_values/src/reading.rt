//! Valuations, read from JSON.
//!
//! - The text is read by `serde_json`, which hands on the last member of each key, in byte order.
//! - Each member is judged once: its name, then an earlier member of the same field, then its value.

ghost use Rattle.std.specs.Prelude.{◌≡◌, ◌≤◌, ◌^◌, [], length, Ok, Err, IfOk, IfErr, IfSome, Some, None, option_map};
ghost use Rattle.serde_json.specs.View.{view, members_view};
ghost use Rattle.rx_types.specs.Domain.{domain_of};
ghost use Rattle.rx_graph.specs.Graph.{domains_in, domains_of, graph_of};
ghost use Rattle.rx_values.specs.Valuation.{content};
ghost use Rattle.rx_values.specs.Reading.{bytes_from, content_from, if_in, literal_of, scalar_from, json_of, members_in, values_in, with_member, values_from, value_of, IsNoJson, NotJson, UnknownField, BadValue, Duplicate};
ghost use Rattle.rx_values.specs.Answers.{refusal_of};
ghost use Rattle.serde_json.specs.Errors.{IsMemory};

use crate::fault::ValueFault;
use crate::fields::{field_named, literal_named};
use crate::valuation::{Valuation, Value};
use hex::FromHexError;
use rx_graph::{Elaborated, Message, Scalar, Spec, scalar_of};
use rx_types::{ScalarType, contains};
use serde_json::{Category, Map};
use std::alloc::{AllocError, Global};

// The number, if it is one of the type's.
fn if_in(scalar: &ScalarType, number: u64) -> Option<u64>
    ensures { result ≡ if_in (domain_of scalar.now) number }
{
    if contains(scalar, number) {
        Some(number)
    } else {
        None
    }
}

// The number of the literal that a text names.
fn literal_of(scalar: &ScalarType, name: &str) -> Option<u64>
    ensures { result ≡ literal_of (domain_of scalar.now) name.now }
{
    match scalar {
        ScalarType::Integer { .. } => None,
        ScalarType::Enumeration { literals, .. } => {
            literal_named(literals.as_slice(), name.as_bytes())
        }
    }
}

// The number that a JSON value is for a scalar.
fn scalar_from(scalar: &ScalarType, value: &serde_json::Value) -> Option<u64>
    ensures { result ≡ scalar_from (domain_of scalar.now) (view value.now) }
{
    match value.as_u64() {
        Some(number) => if_in(scalar, number),
        None => match value.as_str() {
            Some(name) => literal_of(scalar, name),
            None => None,
        },
    }
}

// The bytes that a JSON value is.
fn bytes_from(alloc: Global, value: &serde_json::Value) -> Result<Option<Value>, AllocError>
    ensures { IfOk result (λ o. option_map content o ≡ bytes_from (view value.now)) }
{
    match value.as_str() {
        Some(text) => match hex::decode(alloc, text.as_bytes()) {
            Ok(bytes) => Ok(Some(Value::Bytes(bytes))),
            Err(FromHexError::OutOfMemory) => Err(AllocError),
            Err(_) => Ok(None),
        },
        None => Ok(None),
    }
}

// What a JSON value is for a field of this scalar type, or for one of bytes.
fn content_from(
    alloc: Global,
    scalar: Option<&ScalarType>,
    value: &serde_json::Value,
) -> Result<Option<Value>, AllocError>
    ensures { IfOk result (λ o. option_map content o ≡ content_from (option_map (λ t. domain_of t.now) scalar.entry) (view value.now)) }
{
    match scalar {
        Some(scalar) => match scalar_from(scalar, value) {
            Some(number) => Ok(Some(Value::Number(number))),
            None => Ok(None),
        },
        None => bytes_from(alloc, value),
    }
}

// The bytes of a key.
fn bytes_of(alloc: Global, key: &str) -> Result<Vec<u8>, AllocError>
    ensures { IfOk result (λ bytes. bytes.items ≡ key.now) }
{
    Vec::from_slice(alloc, key.as_bytes())
}

fn unknown_field(alloc: Global, key: &str) -> ValueFault
    ensures { IfSome (refusal_of result) (λ r. r ≡ UnknownField key.now) }
{
    match bytes_of(alloc, key) {
        Ok(key) => ValueFault::UnknownField(key),
        Err(_) => ValueFault::NoMemory,
    }
}

fn bad_value(alloc: Global, key: &str) -> ValueFault
    ensures { IfSome (refusal_of result) (λ r. r ≡ BadValue key.now) }
{
    match bytes_of(alloc, key) {
        Ok(key) => ValueFault::BadValue(key),
        Err(_) => ValueFault::NoMemory,
    }
}

fn duplicate(alloc: Global, key: &str) -> ValueFault
    ensures { IfSome (refusal_of result) (λ r. r ≡ Duplicate key.now) }
{
    match bytes_of(alloc, key) {
        Ok(key) => ValueFault::Duplicate(key),
        Err(_) => ValueFault::NoMemory,
    }
}

// The valuation with one member more.
fn with_member(
    alloc: Global,
    message: &Message,
    scalars: &[Scalar],
    values: Valuation,
    key: &str,
    value: &serde_json::Value,
) -> Result<Valuation, ValueFault>
    requires { length message.now.fields.items ≤ 2 ^ 16 }
    ensures ok { IfOk result (λ v. with_member (domains_in scalars.now) (graph_of message.now) values key.now (view value.now) ≡ Ok v) }
    ensures refused { IfErr result (λ e. IfSome (refusal_of e) (λ r. with_member (domains_in scalars.now) (graph_of message.now) values key.now (view value.now) ≡ Err r)) }
{
    let Some(field) = field_named(message.fields.as_slice(), key.as_bytes()) else {
        return Err(unknown_field(alloc, key));
    };
    if values.names(field) {
        return Err(duplicate(alloc, key));
    }
    match content_from(alloc, scalar_of(scalars, message, field), value) {
        Ok(Some(content)) => Ok(values.put(field, content)?),
        Ok(None) => Err(bad_value(alloc, key)),
        Err(_) => Err(ValueFault::NoMemory),
    }
}

// The valuation of the members.
fn read_members(
    alloc: Global,
    message: &Message,
    scalars: &[Scalar],
    members: &Map<String, serde_json::Value>,
) -> Result<Valuation, ValueFault>
    requires { length message.now.fields.items ≤ 2 ^ 16 }
    ensures ok { IfOk result (λ v. values_from (domains_in scalars.now) (graph_of message.now) [] (members_view members.now.entries) ≡ Ok v) }
    ensures refused { IfErr result (λ e. IfSome (refusal_of e) (λ r. values_from (domains_in scalars.now) (graph_of message.now) [] (members_view members.now.entries) ≡ Err r)) }
{
    let mut values = Valuation::new(alloc);
    for (key, value) in members.iter() {
        values = with_member(alloc, message, scalars, values, key.as_str(), value)?;
    }
    Ok(values)
}

// The valuation of a JSON value.
fn from_value(
    alloc: Global,
    message: &Message,
    scalars: &[Scalar],
    value: &serde_json::Value,
) -> Result<Valuation, ValueFault>
    requires { length message.now.fields.items ≤ 2 ^ 16 }
    ensures ok { IfOk result (λ v. values_in (domains_in scalars.now) (graph_of message.now) (members_in (view value.now)) ≡ Ok v) }
    ensures refused { IfErr result (λ e. IfSome (refusal_of e) (λ r. values_in (domains_in scalars.now) (graph_of message.now) (members_in (view value.now)) ≡ Err r)) }
{
    match value.as_object() {
        Some(members) => read_members(alloc, message, scalars, members),
        None => Err(ValueFault::NotObject),
    }
}

// Why a text is no JSON value.
fn fault_of(error: &serde_json::Error) -> ValueFault
    ensures told { IfSome (refusal_of result) (λ r. r ≡ NotJson) }
    ensures memory { IsMemory error.now → refusal_of result ≡ None }
{
    match error.classify() {
        Category::Memory => ValueFault::NoMemory,
        _ => ValueFault::NotJson,
    }
}

// The JSON value of a text.
fn parse(alloc: Global, text: &[u8]) -> Result<serde_json::Value, ValueFault>
    ensures ok { IfOk result (λ v. json_of text.now ≡ Some (view v)) }
    ensures refused { IfErr result (λ e. IfSome (refusal_of e) (λ r. IsNoJson text.now r)) }
{
    match serde_json::Value::from_slice(alloc, text) {
        Ok(value) => Ok(value),
        Err(error) => Err(fault_of(&error)),
    }
}

// The valuation that a text is.
fn values_of(
    alloc: Global,
    message: &Message,
    scalars: &[Scalar],
    text: &[u8],
) -> Result<Valuation, ValueFault>
    requires { length message.now.fields.items ≤ 2 ^ 16 }
    ensures ok { IfOk result (λ v. value_of (domains_in scalars.now) (graph_of message.now) text.now ≡ Ok v) }
    ensures refused { IfErr result (λ e. IfSome (refusal_of e) (λ r. value_of (domains_in scalars.now) (graph_of message.now) text.now ≡ Err r)) }
{
    match parse(alloc, text) {
        Ok(value) => from_value(alloc, message, scalars, &value),
        Err(fault) => Err(fault),
    }
}

/// The valuation that a JSON text is for a message, or why it is none: the first refusal in the order
/// of the keys' bytes.
pub fn from_json(
    alloc: Global,
    message: &Message,
    spec: &Spec,
    text: &[u8],
) -> Result<Valuation, ValueFault>
    requires { length message.now.fields.items ≤ 2 ^ 16 }
    ensures ok { IfOk result (λ v. value_of (domains_of spec.now) (graph_of message.now) text.now ≡ Ok v) }
    ensures refused { IfErr result (λ e. IfSome (refusal_of e) (λ r. value_of (domains_of spec.now) (graph_of message.now) text.now ≡ Err r)) }
{
    values_of(alloc, message, spec.scalars.as_slice(), text)
}

/// The valuation that a JSON text is for an elaborated message, or why it is none.
pub fn valuation_of(
    alloc: Global,
    message: &Elaborated<'_>,
    text: &[u8],
) -> Result<Valuation, ValueFault>
    ensures ok { IfOk result (λ v. value_of message.now.domains message.now.graph text.now ≡ Ok v) }
    ensures refused { IfErr result (λ e. IfSome (refusal_of e) (λ r. value_of message.now.domains message.now.graph text.now ≡ Err r)) }
{
    values_of(alloc, message.message(), message.scalars(), text)
}
