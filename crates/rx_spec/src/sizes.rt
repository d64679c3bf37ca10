//! Sizes of fields, and the sizes of scalars in low order.

ghost use Rattle.std.specs.Prelude.{◌≡◌, IfOk, IfErr};
ghost use Rattle.std.specs.List.{list_any};
ghost use Rattle.rx_graph.specs.Checks.{is_node};
ghost use Rattle.rx_graph.specs.Graph.{arrow_of, arrows};
ghost use Rattle.rx_judge.specs.Meaning.{Tells};
ghost use Rattle.rx_spec.specs.Sizes.{lacks_size, only_ends, is_sized, is_in_order, held_sized, fields_sized};

use crate::fields::held_at;
use rx_elab::Held;
use rx_graph::{Link, Node};
use rx_judge::{Fault, refused_at};
use rx_syntax::{FieldTree, Named, Rule};
use std::alloc::Global;

// Whether the node is the field at a place.
fn is_at(index: usize, node: Node) -> bool
    ensures { result ≡ is_node (Node.At index) node }
{
    match node {
        Node::Start => false,
        Node::At(field) => index == usize::from(field),
        Node::Null => false,
    }
}

fn is_null(node: Node) -> bool
    ensures { result ≡ is_node Node.Null node }
{
    match node {
        Node::Start => false,
        Node::At(_) => false,
        Node::Null => true,
    }
}

fn lacks_size(index: usize, link: &Link) -> bool
    ensures { result ≡ lacks_size index (arrow_of link.now) }
{
    is_at(index, link.target) && link.size.is_none()
}

fn any_lacks_size(index: usize, links: &[Link]) -> bool
    ensures { result ≡ list_any (lacks_size index) (arrows links.now) }
{
    for link in links {
        if lacks_size(index, link) {
            return true;
        }
    }
    false
}

// Whether the only link of a field goes to null.
fn only_ends(links: &[Link], index: usize) -> bool
    ensures { result ≡ only_ends (arrows links.now) index }
{
    let mut ends = false;
    for link in links {
        if is_at(index, link.source) {
            if ends || !is_null(link.target) {
                return false;
            }
            ends = true;
        }
    }
    ends
}

fn is_sized(links: &[Link], index: usize) -> bool
    ensures { result ≡ is_sized (arrows links.now) index }
{
    !any_lacks_size(index, links) || only_ends(links, index)
}

fn is_in_order(low: bool, size: u8) -> bool
    ensures { result ≡ is_in_order low size }
{
    !low || size < 8 || size % 8 == 0
}

fn held_sized(
    alloc: Global,
    low: bool,
    links: &[Link],
    name: &Named,
    index: usize,
    held: Option<Held>,
) -> Result<(), Fault>
    ensures meaning { IfOk result (λ x. held_sized low (arrows links.now) name.now index held ≡ Ok x) }
    ensures refusal { IfErr result (λ e. Tells e (held_sized low (arrows links.now) name.now index held)) }
{
    match held {
        None => Ok(()),
        Some(Held::Scalar(scalar)) => {
            if is_in_order(low, scalar.size) {
                return Ok(());
            }
            Err(Fault::Refused(refused_at(alloc, Rule::OrderSize, name)?))
        }
        Some(Held::Opaque) => {
            if is_sized(links, index) {
                return Ok(());
            }
            Err(Fault::Refused(refused_at(alloc, Rule::MissingSize, name)?))
        }
    }
}

/// That each field has a Size at each link to it, or ends the message (else MissingSize at its name), and that in low
/// order each scalar has fewer than eight bits or whole bytes (else OrderSize at its name).
pub fn fields_sized(
    alloc: Global,
    low: bool,
    held: &[Held],
    links: &[Link],
    fields: &[FieldTree],
) -> Result<(), Fault>
    ensures meaning { IfOk result (λ x. fields_sized low held.now (arrows links.now) fields.now ≡ Ok x) }
    ensures refusal { IfErr result (λ e. Tells e (fields_sized low held.now (arrows links.now) fields.now)) }
{
    for (index, field) in fields.iter().enumerate() {
        held_sized(alloc, low, links, &field.name, index, held_at(held, index))?;
    }
    Ok(())
}
