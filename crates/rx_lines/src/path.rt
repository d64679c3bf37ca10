//! Paths as text: the numbers of their links, each among those of its node.

ghost use Rattle.std.specs.Prelude.{◌≡◌, ◌≤◌, ◌++◌, OnOk, count_by, length, take};
ghost use Rattle.std.specs.List.{flat_map};
ghost use Rattle.rx_graph.specs.Checks.{is_node};
ghost use Rattle.rx_graph.specs.Graph.{arrows};
ghost use Rattle.rx_lines.specs.Subjects.{link_number, path_text, step_text};

use crate::fault::NoMemory;
use crate::line::{put, put_number};
use rx_graph::{Elaborated, Link, Node};
use std::alloc::Global;

// How many of the links lead from the node.
fn count_from(links: &[Link], node: Node) -> usize
    ensures count { result ≡ count_by (λ l. is_node node l.source) (arrows links.now) }
    ensures within { result ≤ length links.now }
{
    let mut count = 0;
    for link in links {
        if node.is(link.source) {
            count += 1;
        }
    }
    count
}

// How many of the links before a place lead from the node.
fn count_before(links: &[Link], place: usize, node: Node) -> usize
    requires { place ≤ length links.now }
    ensures count { result ≡ count_by (λ l. is_node node l.source) (take place (arrows links.now)) }
    ensures within { result ≤ length links.now }
{
    count_from(&links[..place], node)
}

// The number of a link among those of its node, from 1.
fn link_number(message: &Elaborated<'_>, place: u16) -> u64
    ensures { result ≡ link_number message.now.graph place }
{
    match message.link(place) {
        Some(link) => {
            let before = count_before(message.links(), place as usize, link.source);
            before as u64 + 1
        }
        None => 0,
    }
}

// Puts a point and the number of a link at the end.
fn put_step(
    alloc: Global,
    text: &mut Vec<u8>,
    message: &Elaborated<'_>,
    place: u16,
) -> Result<(), NoMemory>
    ensures { OnOk result (text.new.items ≡ text.old.items ++ step_text message.now.graph place) }
{
    put(text, b".")?;
    put_number(alloc, text, link_number(message, place))
}

// Puts links that stand behind others at the end.
fn put_steps(
    alloc: Global,
    text: &mut Vec<u8>,
    message: &Elaborated<'_>,
    path: &[u16],
) -> Result<(), NoMemory>
    ensures { OnOk result (text.new.items ≡ text.old.items ++ flat_map (step_text message.now.graph) path.now) }
{
    for place in path {
        put_step(alloc, text, message, *place)?;
    }
    Ok(())
}

/// Puts a path at the end.
pub(crate) fn put_path(
    alloc: Global,
    text: &mut Vec<u8>,
    message: &Elaborated<'_>,
    path: &[u16],
) -> Result<(), NoMemory>
    ensures { OnOk result (text.new.items ≡ text.old.items ++ path_text message.now.graph path.now) }
{
    let Some((first, rest)) = path.split_first() else {
        return put(text, b"-");
    };
    put_number(alloc, text, link_number(message, *first))?;
    put_steps(alloc, text, message, rest)
}
