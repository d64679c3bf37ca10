//! Goals that a point meets, by the definitions.

ghost use Rattle.std.specs.Prelude.{◌≡◌, ℕ, List, IsTrue, IfSome};
ghost use Rattle.rx_types.specs.Environment.{Placed};
ghost use Rattle.rx_graph.specs.Checks.{IsNumbered};
ghost use Rattle.rx_graph.specs.Graph.{arrow_of, domains_of, graph_of};
ghost use Rattle.rx_graph.specs.Paths.{IsTrue as Holds};
ghost use Rattle.rx_layout.specs.Goals.{source, IsMet, MetBy};

use crate::evaluated::is_true;
use crate::followed::{follow, is_same};
use crate::formula::{is_broken, is_misplaced, is_off_grid, is_uncovered, is_uneven};
use rx_graph::{Link, Message, Node, Spec};
use rx_layout::Goal;
use rx_types::Env;

// The node to which the goal asks the paths.
fn source(goal: &Goal) -> Node
    ensures { result ≡ source goal.now }
{
    match goal {
        Goal::Reached(field) => Node::At(*field),
        Goal::Exclusive(node, _, _)
        | Goal::Taken(node, _)
        | Goal::Position(node, _)
        | Goal::Grid(node, _)
        | Goal::Overlay(node, _)
        | Goal::Cover(node, _)
        | Goal::Whole(node, _) => *node,
    }
}

// The link of a node that has a number, if it is taken.
fn taken<'m>(message: &'m Message, node: Node, number: u16, env: &Env) -> Option<&'m Link>
    ensures { IfSome result (λ link. (i : ℕ) × IsNumbered (graph_of message.now) node number i (arrow_of link.now) × Holds (arrow_of link.now) env.now) }
{
    let mut count = 0;
    for link in message.links.as_slice() {
        if is_same(node, link.source) {
            count += 1;
            if count == number as usize {
                return if_true(link, env);
            }
        }
    }
    None
}

// The link, if it is taken.
fn if_true<'m>(link: &'m Link, env: &Env) -> Option<&'m Link>
    ensures { IfSome result (λ l. (l.now ≡ link.now) × Holds (arrow_of link.now) env.now) }
{
    if is_true(&link.condition, env) {
        Some(link)
    } else {
        None
    }
}

// Whether the goal's formula holds at the end of a path with these fields.
fn is_met(message: &Message, spec: &Spec, goal: &Goal, env: &Env) -> bool
    ensures { IsTrue result → IsMet (domains_of spec.now) (graph_of message.now) env.now goal.now }
{
    match goal {
        Goal::Exclusive(node, one, other) => {
            taken(message, *node, *one, env).is_some()
                && taken(message, *node, *other, env).is_some()
        }
        Goal::Taken(node, number) => taken(message, *node, *number, env).is_some(),
        Goal::Reached(_) => true,
        Goal::Position(node, number) => match taken(message, *node, *number, env) {
            Some(link) => is_misplaced(message, spec, link, env),
            None => false,
        },
        Goal::Grid(node, number) => match taken(message, *node, *number, env) {
            Some(link) => is_off_grid(message, spec, link, env),
            None => false,
        },
        Goal::Overlay(node, number) => match taken(message, *node, *number, env) {
            Some(link) => is_uneven(message, spec, link, env),
            None => false,
        },
        Goal::Cover(node, number) => match taken(message, *node, *number, env) {
            Some(link) => is_uncovered(message, link, env),
            None => false,
        },
        Goal::Whole(node, number) => match taken(message, *node, *number, env) {
            Some(link) => is_broken(message, link, env),
            None => false,
        },
    }
}

/// Whether the path is partial in a message of `total` bytes with a number for each of its scalars, and meets the goal.
pub fn shows(
    message: &Message,
    spec: &Spec,
    goal: &Goal,
    path: &[u16],
    total: u32,
    numbers: &[u64],
) -> bool
    ensures { IsTrue result → (fields : List Placed) × MetBy (domains_of spec.now) (graph_of message.now) goal.now total path.now fields }
{
    match follow(message, spec, path, total, numbers) {
        Some((env, at)) => is_same(at, source(goal)) && is_met(message, spec, goal, &env),
        None => false,
    }
}
