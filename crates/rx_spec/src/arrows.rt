//! The links of a message, with the conditions and aspects of its text.

ghost use Rattle.std.specs.Prelude.{◌≡◌, ◌^◌, IfOk, map};
ghost use Rattle.std.specs.Option.{option_copied, option_or};
ghost use Rattle.rx_types.specs.Tree.{tree_of, tree_if_any};
ghost use Rattle.rx_graph.specs.Graph.{arrow_of, arrows};
ghost use Rattle.rx_links.specs.Cycle.{IsStop, AreWithin, clauses_of, clause_of, told_of_field, told_by_field, node_of};
ghost use Rattle.rx_elab.specs.Parts.{parts_of, message_parts_of};
ghost use Rattle.rx_spec.specs.Arrows.{own_parts, thens_of, clause_in, clause_parts, both, place_at, place_of_way, arrow_of_way};
ghost use Rattle.rx_spec.specs.Kept.{parts_kept};

use rx_elab::{MessageParts, Parts};
use rx_graph::{Link, Node};
use rx_judge::NoMemory;
use rx_links::{Stop, Way, clause_of, clauses_of};
use rx_syntax::{FieldTree, MessageTree, Named, Place, ThenTree};
use rx_types::{Expr, FieldId, Operator};
use std::alloc::Global;

pub(crate) fn node_of(stop: Stop) -> Node
    requires { IsStop (2 ^ 16) stop }
    ensures { result ≡ node_of stop }
{
    match stop {
        Stop::Start => Node::Start,
        Stop::At(index) => Node::At(index as FieldId),
        Stop::Null => Node::Null,
    }
}

// ---- what is written of a link

// What is written of a node, if it is a field.
fn own_parts<'a>(parts: &'a MessageParts, stop: Stop) -> Option<&'a Parts>
    ensures { parts_kept (option_copied result) ≡ own_parts (message_parts_of parts.now) stop }
{
    match stop {
        Stop::Start => None,
        Stop::At(index) => match parts.fields.get(index) {
            Some(field) => Some(&field.own),
            None => None,
        },
        Stop::Null => None,
    }
}

// What is written of the links of a node.
fn thens_of<'a>(parts: &'a MessageParts, stop: Stop) -> &'a [Parts]
    ensures { map parts_of result.now ≡ thens_of (message_parts_of parts.now) stop }
{
    match stop {
        Stop::Start => parts.start.as_slice(),
        Stop::At(index) => match parts.fields.get(index) {
            Some(field) => field.thens.as_slice(),
            None => &[],
        },
        Stop::Null => &[],
    }
}

fn clause_in<'a>(thens: &'a [Parts], clause: Option<usize>) -> Option<&'a Parts>
    ensures { parts_kept (option_copied result) ≡ clause_in (map parts_of thens.now) clause }
{
    match clause {
        Some(index) => thens.get(index),
        None => None,
    }
}

// What is written of a link, if it has a clause.
fn clause_parts<'a>(parts: &'a MessageParts, way: Way) -> Option<&'a Parts>
    ensures { parts_kept (option_copied result) ≡ clause_parts (message_parts_of parts.now) way }
{
    clause_in(thens_of(parts, way.source), way.clause)
}

// ---- conditions and aspects

fn condition_of<'a>(parts: Option<&'a Parts>) -> Option<&'a Expr>
    ensures { tree_if_any (option_copied result) ≡ (parts_kept (option_copied parts.entry)).condition }
{
    match parts {
        Some(parts) => parts.condition.as_ref(),
        None => None,
    }
}

fn first_of<'a>(parts: Option<&'a Parts>) -> Option<&'a Expr>
    ensures { tree_if_any (option_copied result) ≡ (parts_kept (option_copied parts.entry)).first }
{
    match parts {
        Some(parts) => parts.first.as_ref(),
        None => None,
    }
}

fn size_of<'a>(parts: Option<&'a Parts>) -> Option<&'a Expr>
    ensures { tree_if_any (option_copied result) ≡ (parts_kept (option_copied parts.entry)).size }
{
    match parts {
        Some(parts) => parts.size.as_ref(),
        None => None,
    }
}

// Both conditions, as far as they are written.
fn both(alloc: Global, own: Option<&Expr>, clause: Option<&Expr>) -> Result<Expr, NoMemory>
    ensures { IfOk result (λ e. tree_of e ≡ both (tree_if_any (option_copied own.entry)) (tree_if_any (option_copied clause.entry))) }
{
    match own {
        None => match clause {
            None => Ok(Expr::Truth(true)),
            Some(clause) => Ok(clause.copy(alloc)?),
        },
        Some(own) => match clause {
            None => Ok(own.copy(alloc)?),
            Some(clause) => {
                let own = own.copy(alloc)?;
                let clause = clause.copy(alloc)?;
                Ok(Expr::binary(alloc, Operator::And, own, clause)?)
            }
        },
    }
}

// The aspect of the clause, else that of the target.
fn either(
    alloc: Global,
    clause: Option<&Expr>,
    target: Option<&Expr>,
) -> Result<Option<Expr>, NoMemory>
    ensures { IfOk result (λ e. tree_if_any e ≡ option_or (tree_if_any (option_copied clause.entry)) (tree_if_any (option_copied target.entry))) }
{
    match clause {
        Some(clause) => {
            let copy = clause.copy(alloc)?;
            Ok(Some(copy))
        }
        None => match target {
            Some(target) => {
                let copy = target.copy(alloc)?;
                Ok(Some(copy))
            }
            None => Ok(None),
        },
    }
}

// ---- the place of a link

// The place where the target is declared, or that of the message's name for what is no field.
fn place_of_field(name: &Named, fields: &[FieldTree], target: Stop) -> Place
    ensures { result ≡ (told_by_field name.now fields.now target).place }
{
    match target {
        Stop::Start => name.place,
        Stop::At(index) => match fields.get(index) {
            Some(field) => field.name.place,
            None => name.place,
        },
        Stop::Null => name.place,
    }
}

fn place_at(name: &Named, fields: &[FieldTree], target: Stop, clause: Option<&ThenTree>) -> Place
    ensures { result ≡ place_at name.now fields.now target (option_copied clause.entry) }
{
    match clause {
        None => place_of_field(name, fields, target),
        Some(clause) => clause.place,
    }
}

// The place where the link's target is named.
fn place_of(name: &Named, start: &[ThenTree], fields: &[FieldTree], way: Way) -> Place
    ensures { result ≡ place_at name.now fields.now way.target (clause_of (clauses_of start.now fields.now way.source) way.clause) }
{
    let clause = clause_of(clauses_of(start, fields, way.source), way.clause);
    place_at(name, fields, way.target, clause)
}

// ---- links

// The link from its parts: its clause, and what is written of its source and of its target.
fn link_joined(
    alloc: Global,
    way: Way,
    place: Place,
    source: Option<&Parts>,
    clause: Option<&Parts>,
    target: Option<&Parts>,
) -> Result<Link, NoMemory>
    requires source { IsStop (2 ^ 16) way.source }
    requires target { IsStop (2 ^ 16) way.target }
    ensures { IfOk result (λ l. arrow_of l ≡ record {
      source = node_of way.source;
      target = node_of way.target;
      condition = both (parts_kept (option_copied source.entry)).condition (parts_kept (option_copied clause.entry)).condition;
      first = option_or (parts_kept (option_copied clause.entry)).first (parts_kept (option_copied target.entry)).first;
      size = option_or (parts_kept (option_copied clause.entry)).size (parts_kept (option_copied target.entry)).size;
      place = place;
    }) }
{
    let condition = both(alloc, condition_of(source), condition_of(clause))?;
    let first = either(alloc, first_of(clause), first_of(target))?;
    let size = either(alloc, size_of(clause), size_of(target))?;
    Ok(Link {
        source: node_of(way.source),
        target: node_of(way.target),
        condition,
        first,
        size,
        place,
    })
}

fn link_of_way(
    alloc: Global,
    name: &Named,
    message: &MessageTree,
    parts: &MessageParts,
    way: Way,
) -> Result<Link, NoMemory>
    requires source { IsStop (2 ^ 16) way.source }
    requires target { IsStop (2 ^ 16) way.target }
    ensures { IfOk result (λ l. arrow_of l ≡ arrow_of_way name.now message.now (message_parts_of parts.now) way) }
{
    let place = place_of(name, &message.start, &message.fields, way);
    let source = own_parts(parts, way.source);
    let clause = clause_parts(parts, way);
    let target = own_parts(parts, way.target);
    link_joined(alloc, way, place, source, clause, target)
}

/// The links of a message, where `parts` is what is written of it.
pub(crate) fn links_made(
    alloc: Global,
    name: &Named,
    message: &MessageTree,
    parts: &MessageParts,
    ways: &[Way],
) -> Result<Vec<Link>, NoMemory>
    requires { AreWithin (2 ^ 16) ways.now }
    ensures { IfOk result (λ ls. arrows ls.items ≡ map (arrow_of_way name.now message.now (message_parts_of parts.now)) ways.now) }
{
    let mut links = Vec::new(alloc);
    for way in ways {
        links.push(link_of_way(alloc, name, message, parts, *way)?)?;
    }
    Ok(links)
}
