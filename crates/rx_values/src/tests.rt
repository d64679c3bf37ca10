//! What texts read as for a message of a tag, a length and bytes, and what is printed of it.

use crate::{ValueFault, from_json, to_json};
use rx_graph::{Field, Message, Scalar, Spec};
use rx_types::{FieldType, Literal, Name, ScalarType};
use std::alloc::Global;
use std::process::Abort;
use std::test::Fail;

// A tag is 1 for data or 3 for an error.
fn tag(alloc: Global) -> Result<Scalar, Fail> {
    let mut literals = Vec::new(alloc);
    literals.push(Literal {
        name: Name::make(alloc, b"Msg_Data")?,
        number: 1,
    })?;
    literals.push(Literal {
        name: Name::make(alloc, b"Msg_Error")?,
        number: 3,
    })?;
    Ok(Scalar {
        package: Name::make(alloc, b"P")?,
        name: Name::make(alloc, b"Tag")?,
        kind: ScalarType::Enumeration {
            literals,
            size: 8,
            always_valid: false,
        },
    })
}

// A length has 16 bits.
fn length(alloc: Global) -> Result<Scalar, Fail> {
    Ok(Scalar {
        package: Name::make(alloc, b"P")?,
        name: Name::make(alloc, b"Length")?,
        kind: ScalarType::Integer {
            first: 0,
            last: 65535,
            size: 16,
        },
    })
}

fn spec(alloc: Global) -> Result<Spec, Fail> {
    let mut scalars = Vec::new(alloc);
    scalars.push(tag(alloc)?)?;
    scalars.push(length(alloc)?)?;
    Ok(Spec {
        scalars,
        messages: Vec::new(alloc),
        refinements: Vec::new(alloc),
    })
}

fn field(name: Name, kind: FieldType) -> Field {
    Field {
        name,
        kind,
        overlay: None,
    }
}

fn message(alloc: Global) -> Result<Message, Fail> {
    let mut fields = Vec::new(alloc);
    fields.push(field(Name::make(alloc, b"Tag")?, FieldType::Scalar(0)))?;
    fields.push(field(Name::make(alloc, b"Length")?, FieldType::Scalar(1)))?;
    fields.push(field(Name::make(alloc, b"Value")?, FieldType::Opaque))?;
    Ok(Message {
        package: Name::make(alloc, b"P")?,
        name: Name::make(alloc, b"M")?,
        fields,
        links: Vec::new(alloc),
        low_order: false,
    })
}

fn with_key(alloc: Global, number: &[u8], key: Vec<u8>) -> Result<Vec<u8>, Fail> {
    let mut text = Vec::from_slice(alloc, number)?;
    text.extend_from_slice(&key)?;
    Ok(text)
}

// The number of a refusal, and the key.
fn refusal(alloc: Global, fault: ValueFault) -> Result<Vec<u8>, Fail> {
    match fault {
        ValueFault::NotJson => Ok(Vec::from_slice(alloc, b"30")?),
        ValueFault::NotObject => Ok(Vec::from_slice(alloc, b"31")?),
        ValueFault::UnknownField(key) => with_key(alloc, b"32 ", key),
        ValueFault::BadValue(key) => with_key(alloc, b"33 ", key),
        ValueFault::Duplicate(key) => with_key(alloc, b"34 ", key),
        ValueFault::NoMemory => Err(Fail::from("memory")),
    }
}

// Reads a text, and compares what is printed of it, or why it is none.
fn reads(rt: &impl Abort, alloc: Global, text: &[u8], printed: &[u8]) -> Result<(), Fail> {
    let spec = spec(alloc)?;
    let message = message(alloc)?;
    assert!(rt; message.fields.len() <= 3);
    let answer = match from_json(alloc, &message, &spec, text) {
        Ok(values) => to_json(alloc, &message, &spec, &values)?,
        Err(fault) => refusal(alloc, fault)?,
    };
    assert!(rt; answer.as_slice() == printed);
    Ok(())
}

#[test]
fn reads_and_prints(rt: HostRuntime) -> Result<(), Fail> {
    let alloc = rt.alloc();
    let whole = br#"{"Length":2,"Tag":"Msg_Data","Value":"0a0b"}"#;
    reads(&rt, alloc, whole, whole)?;
    let other = br#" {"value":"0A0B", "tag":1, "LENGTH":2}"#;
    reads(&rt, alloc, other, whole)?;
    let error = br#"{"Tag":"Msg_Error"}"#;
    reads(&rt, alloc, br#"{"tag":"msg_error"}"#, error)?;
    reads(&rt, alloc, br#"{"Tag":2,"Tag":3}"#, error)?;
    reads(&rt, alloc, br#"{"Value":""}"#, br#"{"Value":""}"#)?;
    reads(&rt, alloc, b"{}", b"{}")
}

#[test]
fn tells_the_first_refusal(rt: HostRuntime) -> Result<(), Fail> {
    let alloc = rt.alloc();
    reads(&rt, alloc, b"[1", b"30")?;
    reads(&rt, alloc, b"\"\xff\"", b"30")?;
    reads(&rt, alloc, b"[1]", b"31")?;
    reads(&rt, alloc, br#"{"Extra":1,"Tag":"Msg_Error"}"#, b"32 Extra")?;
    reads(&rt, alloc, br#"{"Tag":2,"A":1}"#, b"32 A")?;
    reads(&rt, alloc, br#"{"b":1,"Tag":2}"#, b"33 Tag")?;
    let twice = br#"{"Tag":"Msg_Error","tag":9}"#;
    reads(&rt, alloc, twice, b"34 tag")
}

#[test]
fn refuses_values(rt: HostRuntime) -> Result<(), Fail> {
    let alloc = rt.alloc();
    reads(&rt, alloc, br#"{"Length":1e2}"#, b"33 Length")?;
    reads(&rt, alloc, br#"{"Length":-0}"#, b"33 Length")?;
    reads(&rt, alloc, br#"{"Length":2.0}"#, b"33 Length")?;
    reads(&rt, alloc, br#"{"Length":65536}"#, b"33 Length")?;
    reads(&rt, alloc, br#"{"Length":"2"}"#, b"33 Length")?;
    reads(&rt, alloc, br#"{"Tag":"Msg"}"#, b"33 Tag")?;
    reads(&rt, alloc, br#"{"Value":"0a0"}"#, b"33 Value")?;
    reads(&rt, alloc, br#"{"Value":"0g"}"#, b"33 Value")?;
    reads(&rt, alloc, br#"{"Value":10}"#, b"33 Value")
}
