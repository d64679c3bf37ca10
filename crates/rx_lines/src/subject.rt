//! Checks and their subjects as text.

ghost use Rattle.std.specs.Prelude.{◌≡◌, ◌++◌, OnOk, codes, decimal};
ghost use Rattle.rx_layout.specs.declared.goal.Goal.{Goal};
ghost use Rattle.rx_values.specs.Printing.{name_of};
ghost use Rattle.rx_lines.specs.Subjects.{check_name, link_text, node_text, subject_text};

use crate::fault::NoMemory;
use crate::line::{put, put_number};
use rx_graph::{Elaborated, Node};
use rx_layout::Goal;
use rx_types::FieldId;
use std::alloc::Global;

/// The name of a check.
pub(crate) fn check_name(goal: Goal) -> &'static str
    ensures { result.now ≡ check_name goal }
{
    match goal {
        Goal::Exclusive(..) => "Exclusive",
        Goal::Taken(..) => "Taken",
        Goal::Reached(..) => "Reached",
        Goal::Position(..) => "Position",
        Goal::Grid(..) => "Grid",
        Goal::Overlay(..) => "Overlay",
        Goal::Cover(..) => "Cover",
        Goal::Whole(..) => "Whole",
    }
}

// Puts the name of a field at the end.
fn put_field(text: &mut Vec<u8>, message: &Elaborated<'_>, field: FieldId) -> Result<(), NoMemory>
    ensures { OnOk result (text.new.items ≡ text.old.items ++ name_of message.now.graph field) }
{
    match message.fields().get(field as usize) {
        Some(field) => put(text, field.name.bytes()),
        None => put(text, b""),
    }
}

// Puts a node at the end.
fn put_node(text: &mut Vec<u8>, message: &Elaborated<'_>, node: Node) -> Result<(), NoMemory>
    ensures { OnOk result (text.new.items ≡ text.old.items ++ node_text message.now.graph node) }
{
    match node {
        Node::Start => put(text, b"-"),
        Node::At(field) => put_field(text, message, field),
        Node::Null => put(text, b"null"),
    }
}

// Puts a space and a number at the end.
fn put_spaced(alloc: Global, text: &mut Vec<u8>, number: u16) -> Result<(), NoMemory>
    ensures { OnOk result (text.new.items ≡ text.old.items ++ (codes " " ++ decimal number)) }
{
    put(text, b" ")?;
    put_number(alloc, text, u64::from(number))
}

// Puts a node and the number of one of its links at the end.
fn put_link(
    alloc: Global,
    text: &mut Vec<u8>,
    message: &Elaborated<'_>,
    node: Node,
    number: u16,
) -> Result<(), NoMemory>
    ensures { OnOk result (text.new.items ≡ text.old.items ++ link_text message.now.graph node number) }
{
    put_node(text, message, node)?;
    put_spaced(alloc, text, number)
}

// Puts a node and the numbers of two of its links at the end.
fn put_links(
    alloc: Global,
    text: &mut Vec<u8>,
    message: &Elaborated<'_>,
    node: Node,
    one: u16,
    other: u16,
) -> Result<(), NoMemory>
    ensures { OnOk result (text.new.items ≡ text.old.items ++ subject_text message.now.graph (Goal.Exclusive node one other)) }
{
    put_link(alloc, text, message, node, one)?;
    put_spaced(alloc, text, other)
}

/// Puts the subject of a check at the end.
pub(crate) fn put_subject(
    alloc: Global,
    text: &mut Vec<u8>,
    message: &Elaborated<'_>,
    goal: Goal,
) -> Result<(), NoMemory>
    ensures { OnOk result (text.new.items ≡ text.old.items ++ subject_text message.now.graph goal) }
{
    match goal {
        Goal::Exclusive(node, one, other) => put_links(alloc, text, message, node, one, other),
        Goal::Taken(node, number) => put_link(alloc, text, message, node, number),
        Goal::Reached(field) => put_field(text, message, field),
        Goal::Position(node, number) => put_link(alloc, text, message, node, number),
        Goal::Grid(node, number) => put_link(alloc, text, message, node, number),
        Goal::Overlay(node, number) => put_link(alloc, text, message, node, number),
        Goal::Cover(node, number) => put_link(alloc, text, message, node, number),
        Goal::Whole(node, number) => put_link(alloc, text, message, node, number),
    }
}
