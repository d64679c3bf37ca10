//! The goals of a message.

ghost use Rattle.std.specs.Prelude.{◌≡◌, List, [], ◌∷◌, ◌++◌, ◌+◌, ◌≤◌, length, drop, slice_get, if◌then◌else◌, IfOk, OnOk};
ghost use Rattle.rx_types.specs.Domain.{Domain};
ghost use Rattle.rx_graph.specs.Graph.{Arrow, Graph, type_of, overlay_of};
ghost use Rattle.rx_layout.specs.Listed.{all_goals, is_absent, is_present, is_checked, goal_of, goal_on, links_at, checks_from, checks_of, pairs_with, pairs_from, pairs_of, reached_from};

use crate::fault::NoMemory;
use crate::goal::Goal;
use rx_graph::{Elaborated, Field, Node};
use rx_types::FieldId;
use std::alloc::Global;

/// A check of one link.
#[derive(Clone, Copy, Debug, PartialEq, Eq)]
pub enum LinkCheck {
    Taken,
    Position,
    Grid,
    Overlay,
    Cover,
    Whole,
}

/// What a goal speaks of.
#[derive(Clone, Copy, Debug, PartialEq, Eq)]
pub enum Subject {
    /// Two links of a node.
    Links(Node, u16, u16),
    Field(FieldId),
    /// One link of a node, and what is checked of it.
    Link(LinkCheck, Node, u16),
}

/// What a goal speaks of.
pub fn subject_of(goal: &Goal) -> Subject
    ensures { goal.now ≡ goal_on result }
{
    match goal {
        Goal::Exclusive(node, one, other) => Subject::Links(*node, *one, *other),
        Goal::Taken(node, number) => Subject::Link(LinkCheck::Taken, *node, *number),
        Goal::Reached(field) => Subject::Field(*field),
        Goal::Position(node, number) => Subject::Link(LinkCheck::Position, *node, *number),
        Goal::Grid(node, number) => Subject::Link(LinkCheck::Grid, *node, *number),
        Goal::Overlay(node, number) => Subject::Link(LinkCheck::Overlay, *node, *number),
        Goal::Cover(node, number) => Subject::Link(LinkCheck::Cover, *node, *number),
        Goal::Whole(node, number) => Subject::Link(LinkCheck::Whole, *node, *number),
    }
}

// ---- the checks of one link

// Whether a field is one of bytes.
fn is_bytes(message: &Elaborated<'_>, field: FieldId) -> bool
    ensures { result ≡ is_absent (type_of message.now.domains message.now.graph field) }
{
    match message.scalar(field) {
        Some(_) => false,
        None => true,
    }
}

// Whether a field lies over another.
fn is_laid_over(message: &Elaborated<'_>, field: FieldId) -> bool
    ensures { result ≡ is_present (overlay_of (slice_get message.now.graph.fields field)) }
{
    match message.overlay(field) {
        Some(_) => true,
        None => false,
    }
}

// Whether a link into a field has this check.
fn is_checked_into(check: LinkCheck, field: FieldId, message: &Elaborated<'_>) -> bool
    ensures { result ≡ is_checked message.now.domains message.now.graph check (Node.At field) }
{
    match check {
        LinkCheck::Taken | LinkCheck::Cover | LinkCheck::Position => true,
        LinkCheck::Grid => is_bytes(message, field),
        LinkCheck::Overlay => is_laid_over(message, field),
        LinkCheck::Whole => false,
    }
}

// Whether a link to a target has this check.
fn is_checked(check: LinkCheck, target: Node, message: &Elaborated<'_>) -> bool
    ensures { result ≡ is_checked message.now.domains message.now.graph check target }
{
    match target {
        Node::At(field) => is_checked_into(check, field, message),
        Node::Start => matches!(check, LinkCheck::Taken | LinkCheck::Cover),
        Node::Null => matches!(
            check,
            LinkCheck::Taken | LinkCheck::Cover | LinkCheck::Whole
        ),
    }
}

// The goal of a link that has this check.
fn goal_of(check: LinkCheck, node: Node, number: u16) -> Goal
    ensures { result ≡ goal_of check node number }
{
    match check {
        LinkCheck::Taken => Goal::Taken(node, number),
        LinkCheck::Position => Goal::Position(node, number),
        LinkCheck::Grid => Goal::Grid(node, number),
        LinkCheck::Overlay => Goal::Overlay(node, number),
        LinkCheck::Cover => Goal::Cover(node, number),
        LinkCheck::Whole => Goal::Whole(node, number),
    }
}

// Adds the goal of a link, if it has this check.
fn add_check(
    check: LinkCheck,
    node: Node,
    number: u16,
    target: Node,
    message: &Elaborated<'_>,
    goals: &mut Vec<Goal>,
) -> Result<(), NoMemory>
    ensures { OnOk result (goals.new.items ≡ goals.old.items ++ (if is_checked message.now.domains message.now.graph check target then goal_of check node number ∷ [] else [])) }
{
    if is_checked(check, target, message) {
        goals.push(goal_of(check, node, number))?;
    }
    Ok(())
}

// Adds the goals of the links of a node that have this check.
fn add_checks_at(
    check: LinkCheck,
    node: Node,
    message: &Elaborated<'_>,
    goals: &mut Vec<Goal>,
) -> Result<(), NoMemory>
    ensures { OnOk result (goals.new.items ≡ goals.old.items ++ checks_from message.now.domains message.now.graph check node 1 (links_at message.now.graph node)) }
{
    let mut number = 1;
    for link in message.links() {
        if node.is(link.source) {
            add_check(check, node, number, link.target, message, goals)?;
            number += 1;
        }
    }
    Ok(())
}

// Adds the goals of all links that have this check.
fn add_checks(
    check: LinkCheck,
    message: &Elaborated<'_>,
    goals: &mut Vec<Goal>,
) -> Result<(), NoMemory>
    ensures { OnOk result (goals.new.items ≡ goals.old.items ++ checks_of message.now.domains message.now.graph check) }
{
    add_checks_at(check, Node::Start, message, goals)?;
    for field in 0..message.fields().len() {
        add_checks_at(check, Node::At(field as FieldId), message, goals)?;
    }
    Ok(())
}

// ---- two links, and fields

// How many links a node has.
fn links_from(node: Node, message: &Elaborated<'_>) -> u16
    ensures value { result ≡ length (links_at message.now.graph node) }
    ensures few { result ≤ 512 }
{
    let mut count = 0;
    for link in message.links() {
        if node.is(link.source) {
            count += 1;
        }
    }
    count
}

// Adds link `first` with each later one of so many.
fn add_pairs_with(node: Node, first: u16, count: u16, goals: &mut Vec<Goal>) -> Result<(), NoMemory>
    requires few { count ≤ 512 }
    ensures { OnOk result ((domains : List Domain) (m : Graph) (links : List Arrow) → length links ≡ count → goals.new.items ≡ goals.old.items ++ pairs_with domains m node first (first + 1) (drop first links)) }
{
    for second in first..count {
        goals.push(Goal::Exclusive(node, first, second + 1))?;
    }
    Ok(())
}

// Adds each of so many links with each later one.
fn add_pairs_from(node: Node, count: u16, goals: &mut Vec<Goal>) -> Result<(), NoMemory>
    requires few { count ≤ 512 }
    ensures { OnOk result ((domains : List Domain) (m : Graph) (links : List Arrow) → length links ≡ count → goals.new.items ≡ goals.old.items ++ pairs_from domains m node 1 links) }
{
    for first in 0..count {
        add_pairs_with(node, first + 1, count, goals)?;
    }
    Ok(())
}

// Adds each two links of a node.
fn add_pairs_at(node: Node, message: &Elaborated<'_>, goals: &mut Vec<Goal>) -> Result<(), NoMemory>
    ensures { OnOk result ((domains : List Domain) (m : Graph) → goals.new.items ≡ goals.old.items ++ pairs_from domains m node 1 (links_at message.now.graph node)) }
{
    let count = links_from(node, message);
    add_pairs_from(node, count, goals)
}

// Adds each two links of all nodes.
fn add_pairs(message: &Elaborated<'_>, goals: &mut Vec<Goal>) -> Result<(), NoMemory>
    ensures { OnOk result ((domains : List Domain) → goals.new.items ≡ goals.old.items ++ pairs_of domains message.now.graph) }
{
    add_pairs_at(Node::Start, message, goals)?;
    for field in 0..message.fields().len() {
        add_pairs_at(Node::At(field as FieldId), message, goals)?;
    }
    Ok(())
}

// Adds the fields.
fn add_reached(fields: &[Field], goals: &mut Vec<Goal>) -> Result<(), NoMemory>
    requires fields { length fields.now ≤ 128 }
    ensures { OnOk result ((domains : List Domain) (m : Graph) → goals.new.items ≡ goals.old.items ++ reached_from domains m 0 fields.now) }
{
    for field in 0..fields.len() {
        goals.push(Goal::Reached(field as FieldId))?;
    }
    Ok(())
}

// ---- all

// Adds the goals of all links that have one of these checks, one check after the other.
fn add_places(message: &Elaborated<'_>, goals: &mut Vec<Goal>) -> Result<(), NoMemory>
    ensures { OnOk result (goals.new.items ≡ goals.old.items ++ (checks_of message.now.domains message.now.graph LinkCheck.Position ++ (checks_of message.now.domains message.now.graph LinkCheck.Grid ++ (checks_of message.now.domains message.now.graph LinkCheck.Overlay ++ (checks_of message.now.domains message.now.graph LinkCheck.Cover ++ checks_of message.now.domains message.now.graph LinkCheck.Whole))))) }
{
    add_checks(LinkCheck::Position, message, goals)?;
    add_checks(LinkCheck::Grid, message, goals)?;
    add_checks(LinkCheck::Overlay, message, goals)?;
    add_checks(LinkCheck::Cover, message, goals)?;
    add_checks(LinkCheck::Whole, message, goals)
}

// Adds all goals of a message, in order.
fn add_all(message: &Elaborated<'_>, goals: &mut Vec<Goal>) -> Result<(), NoMemory>
    ensures { OnOk result (goals.new.items ≡ goals.old.items ++ all_goals message.now.domains message.now.graph) }
{
    add_pairs(message, goals)?;
    add_checks(LinkCheck::Taken, message, goals)?;
    add_reached(message.fields(), goals)?;
    add_places(message, goals)
}

/// All goals of a message, in the order in which they are reported.
pub fn goals(alloc: Global, message: &Elaborated<'_>) -> Result<Vec<Goal>, NoMemory>
    ensures { IfOk result (λ goals. goals.items ≡ all_goals message.now.domains message.now.graph) }
{
    let mut goals = Vec::new(alloc);
    add_all(message, &mut goals)?;
    Ok(goals)
}
