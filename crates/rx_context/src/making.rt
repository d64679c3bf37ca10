//! What a plan keeps, made of a message and its scalar types.

ghost use Rattle.std.specs.Prelude.{◌≡◌, ◌+◌, ◌<◌, ◌^◌, Some, IfOk};
ghost use Rattle.rx_graph.specs.Elaborated.{IsElaborated};
ghost use Rattle.rx_graph.specs.Graph.{arrows, domains_in, graph_of, scalar_of};
ghost use Rattle.rx_context.specs.Plan.{domain_if_any, planned, AreSpans, IsSpanOf, KeepsTypes, MayBePlanned, StandsFor};

use crate::fault::NoMemory;
use crate::kept::{Kept, Span};
use rx_graph::{Field, Link, Message, Node, Scalar};
use rx_types::{FieldType, ScalarType};
use std::alloc::Global;

/// What a plan keeps of a message.
pub fn kept_of(alloc: Global, message: &Message, scalars: &[Scalar]) -> Result<Kept, NoMemory>
    requires { MayBePlanned (domains_in scalars.now) (graph_of message.now) }
    ensures { IfOk result (λ kept. StandsFor (domains_in scalars.now) (graph_of message.now) (planned kept)) }
{
    let kinds = kinds_of(alloc, message, scalars)?;
    let spans = spans_of(alloc, message, scalars)?;
    let message = message.copy(alloc)?;
    Ok(Kept {
        message,
        kinds,
        spans,
    })
}

// The scalar type of each field of the message that is a scalar.
fn kinds_of(
    alloc: Global,
    message: &Message,
    scalars: &[Scalar],
) -> Result<Vec<Option<ScalarType>>, NoMemory>
    ensures { IfOk result (λ kinds. KeepsTypes (domains_in scalars.now) (graph_of message.now) kinds.items) }
{
    let mut kinds = Vec::new(alloc);
    for field in message.fields.as_slice() {
        kinds.push(kind_of(alloc, scalars, field)?)?;
    }
    Ok(kinds)
}

// The field's scalar type, if it is a scalar.
fn kind_of(alloc: Global, scalars: &[Scalar], field: &Field) -> Result<Option<ScalarType>, NoMemory>
    ensures { IfOk result (λ kind. domain_if_any kind ≡ scalar_of (domains_in scalars.now) (Some field.now)) }
{
    match field.kind {
        FieldType::Scalar(id) => match scalars.get(id as usize) {
            Some(scalar) => {
                let kind = scalar.kind.copy(alloc)?;
                Ok(Some(kind))
            }
            None => Ok(None),
        },
        FieldType::Opaque => Ok(None),
        FieldType::Sequence(_) => Ok(None),
    }
}

// Where the links of the start and of each field stand.
fn spans_of(alloc: Global, message: &Message, scalars: &[Scalar]) -> Result<Vec<Span>, NoMemory>
    requires { IsElaborated (domains_in scalars.now) (graph_of message.now) }
    ensures { IfOk result (λ spans. AreSpans (arrows message.now.links.items) spans.items) }
{
    let links = message.links.as_slice();
    let mut spans = Vec::new(alloc);
    spans.push(span_of(links, Node::Start))?;
    for field in 0..message.fields.len() {
        spans.push(span_of(links, Node::At(field as u16)))?;
    }
    Ok(spans)
}

// Where the links of a node stand.
fn span_of(links: &[Link], node: Node) -> Span
    ensures { IsSpanOf (arrows links.now) node result }
{
    let mut span = Span { from: 0, end: 0 };
    for index in 0..links.len() {
        if links[index].source.is(node) {
            span = widened(span, index);
        }
    }
    span
}

// The span up to this place, which is its first if it was empty.
fn widened(span: Span, index: usize) -> Span
    requires { index + 1 < 2 ^ 64 }
    ensures first { span.end ≡ 0 → result ≡ record { from = index; end = index + 1 } }
    ensures more { 0 < span.end → result ≡ record { from = span.from; end = index + 1 } }
{
    let from = if span.end == 0 { index } else { span.from };
    Span {
        from,
        end: index + 1,
    }
}
