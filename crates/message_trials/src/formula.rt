//! What is asked of a link at the end of a path, worked out.

ghost use Rattle.std.specs.Prelude.{◌≡◌, List, IsTrue, ℤ, pos, ◌<ℤ◌, Some};
ghost use Rattle.rx_types.specs.Domain.{Domain};
ghost use Rattle.rx_types.specs.Environment.{places};
ghost use Rattle.rx_graph.specs.Checks.{covered};
ghost use Rattle.rx_graph.specs.Graph.{arrow_of, domains_of, graph_of};
ghost use Rattle.rx_layout.specs.Goals.{IsMisplaced, IsOffGrid, IsUneven, IsUncovered, IsBroken, IsNoMultipleOf8};

use crate::followed::{end, first, overlay, size};
use rx_graph::{Link, Message, Node, Spec};
use rx_types::{Entry, Env};

/// First or Size of the link's target is below 0.
pub fn is_misplaced(message: &Message, spec: &Spec, link: &Link, env: &Env) -> bool
    ensures { IsTrue result → IsMisplaced (domains_of spec.now) (graph_of message.now) env.now (arrow_of link.now) }
{
    let Node::At(field) = link.target else {
        return false;
    };
    is_below(first(link, env)) || is_below(size(message, spec, link, field, env))
}

// Whether there is a number, and it is below 0.
fn is_below(number: Option<i128>) -> bool
    ensures { IsTrue result → (z : ℤ) × (number ≡ Some z) × (z <ℤ pos 0) }
{
    match number {
        Some(number) => number < 0,
        None => false,
    }
}

// Whether there is a number, and it is no multiple of 8.
fn is_between(number: Option<i128>) -> bool
    ensures { IsTrue result → (z : ℤ) × (number ≡ Some z) × IsNoMultipleOf8 z }
{
    match number {
        Some(number) => number.rem_euclid(8) != 0,
        None => false,
    }
}

/// First or Size of the link's target is no multiple of 8.
pub fn is_off_grid(message: &Message, spec: &Spec, link: &Link, env: &Env) -> bool
    ensures { IsTrue result → IsOffGrid (domains_of spec.now) (graph_of message.now) env.now (arrow_of link.now) }
{
    let Node::At(field) = link.target else {
        return false;
    };
    is_between(first(link, env)) || is_between(size(message, spec, link, field, env))
}

/// The Size of the link's target is not that of the field that it lies over.
pub fn is_uneven(message: &Message, spec: &Spec, link: &Link, env: &Env) -> bool
    ensures { IsTrue result → IsUneven (domains_of spec.now) (graph_of message.now) env.now (arrow_of link.now) }
{
    let Node::At(field) = link.target else {
        return false;
    };
    match (
        overlay(message, field),
        size(message, spec, link, field, env),
    ) {
        (Some(below), Some(size)) => env.entry(below).size as i128 != size,
        _ => false,
    }
}

// The greatest end of the fields, or 0.
fn covered(entries: &[Entry]) -> i128
    ensures { result ≡ covered (places entries.now) }
{
    match entries.split_first() {
        None => 0,
        Some((entry, others)) => (entry.first as i128 + entry.size as i128).max(covered(others)),
    }
}

/// The link's target does not begin behind all fields, or at null the last field does not end behind them.
pub fn is_uncovered(message: &Message, link: &Link, env: &Env) -> bool
    ensures { IsTrue result → (domains : List Domain) → IsUncovered domains (graph_of message.now) env.now (arrow_of link.now) }
{
    let covered = covered(env.entries());
    match link.target {
        Node::At(field) => match (overlay(message, field), first(link, env)) {
            (None, Some(first)) => first != covered,
            _ => false,
        },
        Node::Null => end(env.entries()) != covered,
        Node::Start => false,
    }
}

/// At null the last field does not end on a byte.
pub fn is_broken(message: &Message, link: &Link, env: &Env) -> bool
    ensures { IsTrue result → (domains : List Domain) → IsBroken domains (graph_of message.now) env.now (arrow_of link.now) }
{
    match link.target {
        Node::Null => end(env.entries()).rem_euclid(8) != 0,
        _ => false,
    }
}
