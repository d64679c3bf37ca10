ghost use Rattle.std.specs.Prelude.{◌≡◌, ◌≤◌, ◌^◌, IfOk, length};
ghost use Rattle.rx_graph.specs.Graph.{Graph, arrows, graph_of};
ghost use Rattle.rx_graph.specs.Cycles.{HasNoCycle};

use crate::{Link, Message, NoMemory, Node, Scalar, paths, paths_to};
use rx_syntax::Place;
use rx_types::{Expr, Name, ScalarType};
use std::alloc::Global;
use std::test::Fail;

// A link that is always taken.
fn link(source: Node, target: Node) -> Link
    ensures source { result.source ≡ source }
    ensures target { result.target ≡ target }
{
    Link {
        source,
        target,
        condition: Expr::Truth(true),
        first: None,
        size: None,
        place: Place { line: 1, column: 1 },
    }
}

// From the start to field 0 and to null, and from field 0 to null.
fn links(alloc: Global) -> Result<Vec<Link>, NoMemory>
    ensures acyclic { IfOk result (λ all. (m : Graph) → m.links ≡ arrows all.items → HasNoCycle m) }
    ensures few { IfOk result (λ all. length all.items ≤ 2 ^ 16) }
{
    let mut all = Vec::new(alloc);
    all.push(link(Node::Start, Node::At(0)))?;
    all.push(link(Node::Start, Node::Null))?;
    all.push(link(Node::At(0), Node::Null))?;
    Ok(all)
}

fn message(alloc: Global) -> Result<Message, NoMemory>
    ensures acyclic { IfOk result (λ m. HasNoCycle (graph_of m)) }
    ensures few { IfOk result (λ m. length m.links.items ≤ 2 ^ 16) }
{
    let links = links(alloc)?;
    let package = Name::make(alloc, b"P")?;
    let name = Name::make(alloc, b"M")?;
    Ok(Message {
        package,
        name,
        fields: Vec::new(alloc),
        links,
        low_order: false,
    })
}

#[test]
fn lists_both_ways(rt: HostRuntime) -> Result<(), Fail> {
    let message = message(rt.alloc())?;
    let all = paths(rt.alloc(), &message)?;
    assert_eq!(rt; all.len(), 2);
    assert_eq!(rt; all[0].links(), [0, 2].as_slice());
    assert_eq!(rt; all[1].links(), [1].as_slice());
    Ok(())
}

#[test]
fn lists_the_way_to_a_field(rt: HostRuntime) -> Result<(), Fail> {
    let message = message(rt.alloc())?;
    let all = paths_to(rt.alloc(), &message, Node::At(0))?;
    assert_eq!(rt; all.len(), 1);
    assert_eq!(rt; all[0].copy(rt.alloc())?.links(), [0].as_slice());
    Ok(())
}

#[test]
fn copies_messages(rt: HostRuntime) -> Result<(), Fail> {
    let message = message(rt.alloc())?;
    assert_eq!(rt; message.copy(rt.alloc())?.links.len(), 3);
    Ok(())
}

#[test]
fn copies_scalars(rt: HostRuntime) -> Result<(), Fail> {
    let package = Name::make(rt.alloc(), b"P")?;
    let name = Name::make(rt.alloc(), b"Byte")?;
    let kind = ScalarType::Integer {
        first: 0,
        last: 255,
        size: 8,
    };
    let scalar = Scalar {
        package,
        name,
        kind,
    };
    assert_eq!(rt; scalar.copy(rt.alloc())?.kind.size(), 8);
    Ok(())
}
