//! What a message means.

ghost use Rattle.std.specs.Prelude.{◌≡◌, ◌≤◌, ◌^◌, length, IfOk, IfErr};
ghost use Rattle.rx_graph.specs.Graph.{arrows, graph_of};
ghost use Rattle.rx_judge.specs.Meaning.{Tells};
ghost use Rattle.rx_judge.specs.Names.{scope_of};
ghost use Rattle.rx_links.specs.Cycle.{AreWithin};
ghost use Rattle.rx_elab.specs.Types.{types_of};
ghost use Rattle.rx_spec.specs.Kept.{body_kept};
ghost use Rattle.rx_spec.specs.Limit.{HasBoolean};
ghost use Rattle.rx_spec.specs.Messages.{scope_in, links_meant, sized_links, body_laid, body_shaped, body_of, graph_named, message_made, message_of, null_body, null_made, null_message};
ghost use Rattle.rx_spec.specs.Ready.{MessageMakes};
ghost use Rattle.rx_spec.specs.Shape.{shape_of_code};

use crate::arrows::links_made;
use crate::body::Body;
use crate::fields::{fields_meant, known_fields};
use crate::limit::within_limit;
use crate::shape::{Shape, shape_of};
use crate::sizes::fields_sized;
use rx_elab::{Laying, Types, layings_of, message_parts};
use rx_graph::{Link, Message, Node};
use rx_judge::{Fault, NoMemory, Scope, spelled};
use rx_links::Way;
use rx_syntax::{HeaderTree, MessageTree, Named};
use rx_types::Expr;
use std::alloc::Global;

fn links_meant(
    alloc: Global,
    scope: &Scope<'_>,
    layings: &[Laying],
    name: &Named,
    message: &MessageTree,
    ways: &[Way],
) -> Result<Vec<Link>, Fault>
    requires { AreWithin (2 ^ 16) ways.now }
    ensures meaning { IfOk result (λ ls. links_meant (scope_of scope.now) layings.now name.now message.now ways.now ≡ Ok (arrows ls.items)) }
    ensures refusal { IfErr result (λ e. Tells e (links_meant (scope_of scope.now) layings.now name.now message.now ways.now)) }
{
    let parts = message_parts(alloc, scope, layings, &name.word, message)?;
    let links = links_made(alloc, name, message, &parts, ways)?;
    Ok(links)
}

fn sized_links(
    alloc: Global,
    scope: &Scope<'_>,
    layings: &[Laying],
    name: &Named,
    message: &MessageTree,
    shape: &Shape,
) -> Result<Vec<Link>, Fault>
    requires few { length message.now.fields.items ≤ 128 }
    requires within { AreWithin (length message.now.fields.items) shape.now.ways.items }
    ensures meaning { IfOk result (λ ls. sized_links (scope_of scope.now) layings.now name.now message.now (shape_of_code shape.now) ≡ Ok (arrows ls.items)) }
    ensures refusal { IfErr result (λ e. Tells e (sized_links (scope_of scope.now) layings.now name.now message.now (shape_of_code shape.now))) }
{
    let links = links_meant(alloc, scope, layings, name, message, &shape.ways)?;
    fields_sized(
        alloc,
        message.low_order,
        &shape.held,
        &links,
        &message.fields,
    )?;
    Ok(links)
}

fn body_laid(
    alloc: Global,
    scope: &Scope<'_>,
    layings: &[Laying],
    name: &Named,
    message: &MessageTree,
    shape: &Shape,
) -> Result<Body, Fault>
    requires few { length message.now.fields.items ≤ 128 }
    requires within { AreWithin (length message.now.fields.items) shape.now.ways.items }
    ensures meaning { IfOk result (λ b. body_laid (scope_of scope.now) layings.now name.now message.now (shape_of_code shape.now) ≡ Ok (body_kept b)) }
    ensures refusal { IfErr result (λ e. Tells e (body_laid (scope_of scope.now) layings.now name.now message.now (shape_of_code shape.now))) }
{
    let fields = fields_meant(alloc, &shape.held, layings, &message.fields)?;
    let links = sized_links(alloc, scope, layings, name, message, shape)?;
    Ok(Body { fields, links })
}

fn body_shaped(
    alloc: Global,
    scope: &Scope<'_>,
    name: &Named,
    message: &MessageTree,
    shape: &Shape,
) -> Result<Body, Fault>
    requires few { length message.now.fields.items ≤ 128 }
    requires within { AreWithin (length message.now.fields.items) shape.now.ways.items }
    ensures meaning { IfOk result (λ b. body_shaped (scope_of scope.now) name.now message.now (shape_of_code shape.now) ≡ Ok (body_kept b)) }
    ensures refusal { IfErr result (λ e. Tells e (body_shaped (scope_of scope.now) name.now message.now (shape_of_code shape.now))) }
{
    let layings = layings_of(alloc, scope, message, &shape.ways)?;
    body_laid(alloc, scope, &layings, name, message, shape)
}

fn body_within(
    alloc: Global,
    types: &Types,
    header: &HeaderTree,
    name: &Named,
    message: &MessageTree,
    shape: &Shape,
) -> Result<Body, Fault>
    requires few { length message.now.fields.items ≤ 128 }
    requires within { AreWithin (length message.now.fields.items) shape.now.ways.items }
    ensures meaning { IfOk result (λ b. body_shaped (scope_in (types_of types.now) header.now shape.now.held.items message.now) name.now message.now (shape_of_code shape.now) ≡ Ok (body_kept b)) }
    ensures refusal { IfErr result (λ e. Tells e (body_shaped (scope_in (types_of types.now) header.now shape.now.held.items message.now) name.now message.now (shape_of_code shape.now))) }
{
    let fields = known_fields(alloc, &shape.held, &message.fields)?;
    let scope = Scope {
        package: &header.name.word,
        withs: &header.withs,
        fields: &fields,
        literals: &types.literals,
    };
    body_shaped(alloc, &scope, name, message, shape)
}

fn body_of(
    alloc: Global,
    types: &Types,
    header: &HeaderTree,
    name: &Named,
    message: &MessageTree,
) -> Result<Body, Fault>
    ensures meaning { IfOk result (λ b. body_of (types_of types.now) header.now name.now message.now ≡ Ok (body_kept b)) }
    ensures refusal { IfErr result (λ e. Tells e (body_of (types_of types.now) header.now name.now message.now)) }
{
    let shape = shape_of(
        alloc,
        &types.types,
        &header.name.word,
        &header.withs,
        name,
        message,
    )?;
    body_within(alloc, types, header, name, message, &shape)
}

fn graph_named(
    alloc: Global,
    header: &HeaderTree,
    name: &Named,
    body: Body,
    low_order: bool,
) -> Result<Message, Fault>
    ensures meaning { IfOk result (λ m. graph_named header.now name.now (body_kept body) low_order ≡ Ok (graph_of m)) }
    ensures refusal { IfErr result (λ e. Tells e (graph_named header.now name.now (body_kept body) low_order)) }
{
    let package = spelled(alloc, &header.name)?;
    let name = spelled(alloc, name)?;
    Ok(Message {
        package,
        name,
        fields: body.fields,
        links: body.links,
        low_order,
    })
}

fn message_made(
    alloc: Global,
    types: &Types,
    header: &HeaderTree,
    name: &Named,
    message: &MessageTree,
) -> Result<Message, Fault>
    ensures meaning { IfOk result (λ m. message_made (types_of types.now) header.now name.now message.now ≡ Ok (graph_of m)) }
    ensures refusal { IfErr result (λ e. Tells e (message_made (types_of types.now) header.now name.now message.now)) }
{
    let body = body_of(alloc, types, header, name, message)?;
    graph_named(alloc, header, name, body, message.low_order)
}

/// What a message means: the refusals of its shape, then UnknownName at a field that has no name, then those of its
/// expressions and Firsts, then MissingSize and OrderSize at its fields, then GraphLimit at its name if its paths pass
/// the path limit.
pub(crate) fn message_of(
    alloc: Global,
    types: &Types,
    header: &HeaderTree,
    name: &Named,
    message: &MessageTree,
) -> Result<Message, Fault>
    requires boolean { HasBoolean (types_of types.now) }
    requires elaborated { MessageMakes (types_of types.now) header.now name.now message.now }
    ensures meaning { IfOk result (λ m. message_of (types_of types.now) header.now name.now message.now ≡ Ok (graph_of m)) }
    ensures refusal { IfErr result (λ e. Tells e (message_of (types_of types.now) header.now name.now message.now)) }
{
    let made = message_made(alloc, types, header, name, message)?;
    within_limit(alloc, types, name, made)
}

// No fields, and one link from the start to null.
fn null_body(alloc: Global, name: &Named) -> Result<Body, NoMemory>
    ensures { IfOk result (λ b. body_kept b ≡ null_body name.now) }
{
    let link = Link {
        source: Node::Start,
        target: Node::Null,
        condition: Expr::Truth(true),
        first: None,
        size: None,
        place: name.place,
    };
    let mut links = Vec::new(alloc);
    links.push(link)?;
    Ok(Body {
        fields: Vec::new(alloc),
        links,
    })
}

fn null_made(alloc: Global, header: &HeaderTree, name: &Named) -> Result<Message, Fault>
    ensures meaning { IfOk result (λ m. null_made header.now name.now ≡ Ok (graph_of m)) }
    ensures refusal { IfErr result (λ e. Tells e (null_made header.now name.now)) }
{
    let body = null_body(alloc, name)?;
    let message = graph_named(alloc, header, name, body, false)?;
    Ok(message)
}

/// What a null message means: no fields, and one link from the start to null.
pub(crate) fn null_message(
    alloc: Global,
    types: &Types,
    header: &HeaderTree,
    name: &Named,
) -> Result<Message, Fault>
    requires boolean { HasBoolean (types_of types.now) }
    ensures meaning { IfOk result (λ m. null_message (types_of types.now) header.now name.now ≡ Ok (graph_of m)) }
    ensures refusal { IfErr result (λ e. Tells e (null_message (types_of types.now) header.now name.now)) }
{
    let made = null_made(alloc, header, name)?;
    within_limit(alloc, types, name, made)
}
