//! The links of a path, gathered in order.

ghost use Rattle.std.specs.Prelude.{◌≡◌, ℕ, ◌+◌, ◌≤◌, ◌∷◌, [], true, false, not, ◌||◌, IfErr, OnOk};
ghost use Rattle.rx_graph.specs.Cycles.{IsLink};
ghost use Rattle.rx_graph.specs.Graph.{arrow_of};
ghost use Rattle.rx_forms.specs.Steps.{leads_to_field, links_on, scalars_on, into_fields};
ghost use Rattle.rx_forms.specs.Fronts.{Gathers, front_of, after_links, links_within, after_ends, ends_within, ends_of};

use crate::builder::{Builder, add_condition, add_link, scalars_in};
use crate::fault::FormFault;
use crate::laws::links_have_forms;
use rx_graph::{Elaborated, Link, Node};
use std::alloc::Global;

// How many scalars a link leads to, 1 or 0.
fn scalars_at(link: &Link, message: &Elaborated<'_>) -> usize
    ensures value { result ≡ scalars_on message.now.domains message.now.graph (into_fields (arrow_of link.now ∷ [])) }
    ensures one { result ≤ 1 }
{
    match link.target {
        Node::At(field) => scalars_in(message, field),
        _ => 0,
    }
}

// How many scalars the link at an index leads to.
fn scalars_under(index: u16, message: &Elaborated<'_>) -> usize
    ensures value { result ≡ scalars_on message.now.domains message.now.graph (into_fields (links_on message.now.domains message.now.graph (index ∷ []))) }
    ensures one { result ≤ 1 }
{
    match message.link(index) {
        Some(link) => scalars_at(link, message),
        None => 0,
    }
}

/// How many scalars a path leads through.
pub fn scalars_along(path: &[u16], message: &Elaborated<'_>) -> usize
    ensures { result ≡ scalars_on message.now.domains message.now.graph (into_fields (links_on message.now.domains message.now.graph path.now)) }
{
    let mut count = 0;
    for index in path {
        count += scalars_under(*index, message);
    }
    count
}

// ---- links into fields

// Gathers a link, if it leads to a field.
#[tactic(none)]
fn gather_link(
    alloc: Global,
    link: &Link,
    message: &Elaborated<'_>,
    builder: &mut Builder,
) -> Result<(), FormFault>
    requires link { (i : ℕ) × IsLink message.now.graph i (arrow_of link.now) }
    requires few { builder.old.scalar ≤ 190 }
    requires room { builder.old.work.next ≤ 190 }
    ensures { Gathers result (front_of builder.new) (after_links message.now.domains message.now.graph (front_of builder.old) (into_fields (arrow_of link.now ∷ []))) (links_within message.now.domains message.now.graph (front_of builder.old) (into_fields (arrow_of link.now ∷ []))) }
{
    links_have_forms(message);
    match link.target {
        Node::At(field) => add_link(alloc, link, field, message, builder),
        _ => Ok(()),
    }
}

// Gathers the link at an index, if it leads to a field.
#[tactic(none)]
fn gather_index(
    alloc: Global,
    index: u16,
    message: &Elaborated<'_>,
    builder: &mut Builder,
) -> Result<(), FormFault>
    requires few { builder.old.scalar ≤ 190 }
    requires room { builder.old.work.next ≤ 190 }
    ensures { Gathers result (front_of builder.new) (after_links message.now.domains message.now.graph (front_of builder.old) (into_fields (links_on message.now.domains message.now.graph (index ∷ [])))) (links_within message.now.domains message.now.graph (front_of builder.old) (into_fields (links_on message.now.domains message.now.graph (index ∷ [])))) }
{
    match message.link(index) {
        Some(link) => gather_link(alloc, link, message, builder),
        None => Ok(()),
    }
}

/// Gathers the links of a path that lead to fields.
pub fn gather_fields(
    alloc: Global,
    path: &[u16],
    message: &Elaborated<'_>,
    builder: &mut Builder,
) -> Result<(), FormFault>
    requires few { builder.old.scalar + scalars_on message.now.domains message.now.graph (into_fields (links_on message.now.domains message.now.graph path.now)) ≤ 190 }
    requires room { builder.old.work.next ≤ 190 }
    ensures { Gathers result (front_of builder.new) (after_links message.now.domains message.now.graph (front_of builder.old) (into_fields (links_on message.now.domains message.now.graph path.now))) (links_within message.now.domains message.now.graph (front_of builder.old) (into_fields (links_on message.now.domains message.now.graph path.now))) }
{
    for index in path {
        gather_index(alloc, *index, message, builder)?;
    }
    Ok(())
}

// ---- conditions at the end

// Gathers the condition of a link, unless it leads to a field and only the others are asked for.
#[tactic(none)]
fn gather_end(
    alloc: Global,
    link: &Link,
    all: bool,
    message: &Elaborated<'_>,
    builder: &mut Builder,
) -> Result<(), FormFault>
    requires link { (i : ℕ) × IsLink message.now.graph i (arrow_of link.now) }
    requires room { builder.old.work.next ≤ 190 }
    ensures { Gathers result (front_of builder.new) (after_ends message.now.domains message.now.graph (front_of builder.old) (ends_of all (arrow_of link.now ∷ []))) (ends_within message.now.domains message.now.graph (front_of builder.old) (ends_of all (arrow_of link.now ∷ []))) }
{
    links_have_forms(message);
    if is_asked(all, link) {
        add_condition(alloc, link, message, builder)
    } else {
        Ok(())
    }
}

// Whether the condition of a link is asked for at the end.
fn is_asked(all: bool, link: &Link) -> bool
    ensures { result ≡ (all || not (leads_to_field (arrow_of link.now))) }
{
    all || !leads_to_field(link)
}

fn leads_to_field(link: &Link) -> bool
    ensures { result ≡ leads_to_field (arrow_of link.now) }
{
    match link.target {
        Node::At(_) => true,
        _ => false,
    }
}

// Gathers the condition of the link at an index, as above.
#[tactic(none)]
fn gather_end_at(
    alloc: Global,
    index: u16,
    all: bool,
    message: &Elaborated<'_>,
    builder: &mut Builder,
) -> Result<(), FormFault>
    requires room { builder.old.work.next ≤ 190 }
    ensures { Gathers result (front_of builder.new) (after_ends message.now.domains message.now.graph (front_of builder.old) (ends_of all (links_on message.now.domains message.now.graph (index ∷ [])))) (ends_within message.now.domains message.now.graph (front_of builder.old) (ends_of all (links_on message.now.domains message.now.graph (index ∷ [])))) }
{
    match message.link(index) {
        Some(link) => gather_end(alloc, link, all, message, builder),
        None => Ok(()),
    }
}

/// Gathers the conditions of links at the end of a path: all of them, or those that do not lead to fields.
pub fn gather_ends(
    alloc: Global,
    path: &[u16],
    all: bool,
    message: &Elaborated<'_>,
    builder: &mut Builder,
) -> Result<(), FormFault>
    requires room { builder.old.work.next ≤ 190 }
    ensures { Gathers result (front_of builder.new) (after_ends message.now.domains message.now.graph (front_of builder.old) (ends_of all (links_on message.now.domains message.now.graph path.now))) (ends_within message.now.domains message.now.graph (front_of builder.old) (ends_of all (links_on message.now.domains message.now.graph path.now))) }
{
    for index in path {
        gather_end_at(alloc, *index, all, message, builder)?;
    }
    Ok(())
}
