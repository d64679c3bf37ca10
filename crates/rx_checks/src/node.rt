//! The nodes of a message, and the paths to each.

ghost use Rattle.std.specs.Prelude.{◌≡◌, ◌≤◌, IfOk};
ghost use Rattle.rx_graph.specs.Cycles.{ArePathsTo};
ghost use Rattle.rx_layout.specs.Goals.{source};
ghost use Rattle.rx_checks.specs.Lines.{node_at};

use crate::fault::NoMemory;
use rx_graph::{Elaborated, Node, Path, PathFault, paths_make_one_list, paths_to};
use rx_layout::Goal;
use std::alloc::Global;

/// The node at a place: the start, then the fields.
pub(crate) fn node_at(place: usize) -> Node
    requires { place ≤ 128 }
    ensures { result ≡ node_at place }
{
    if place == 0 {
        Node::Start
    } else {
        Node::At((place - 1) as u16)
    }
}

/// The node to which a goal asks the paths.
pub(crate) fn source(goal: &Goal) -> Node
    ensures { result ≡ source goal.now }
{
    match goal {
        Goal::Exclusive(node, _, _) => *node,
        Goal::Taken(node, _) => *node,
        Goal::Reached(field) => Node::At(*field),
        Goal::Position(node, _) => *node,
        Goal::Grid(node, _) => *node,
        Goal::Overlay(node, _) => *node,
        Goal::Cover(node, _) => *node,
        Goal::Whole(node, _) => *node,
    }
}

/// All paths to a node, in order of their link numbers.
pub(crate) fn paths_of(
    alloc: Global,
    message: &Elaborated<'_>,
    node: Node,
) -> Result<Vec<Path>, NoMemory>
    ensures { IfOk result (λ paths. ArePathsTo message.now.graph node paths.items) }
{
    message.is_known();
    let graph = message.message();
    paths_make_one_list(graph);
    match paths_to(alloc, graph, node) {
        Ok(paths) => Ok(paths),
        Err(PathFault::NoMemory) => Err(NoMemory),
        Err(PathFault::TooManyPaths) => unreachable!(),
    }
}
