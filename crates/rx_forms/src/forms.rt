//! All forms of a path.

ghost use Rattle.std.specs.Prelude.{◌≡◌, ◌+◌, ◌<◌, ◌≤◌, ◌&&◌, true, false, Some, IfOk, IfErr, OnOk, slice_get};
ghost use Rattle.rx_types.specs.Domain.{Domain, boolean};
ghost use Rattle.rx_graph.specs.Elaborated.{IsElaborated};
ghost use Rattle.rx_graph.specs.Graph.{domains_of, graph_of};
ghost use Rattle.rx_forms.specs.Steps.{links_on, scalars_on, into_fields, forms_along, passes_limit};
ghost use Rattle.rx_forms.specs.Fronts.{Gathers, front_of, forms_in, after_route, route_within, after_path, path_within};

use crate::builder::{Builder, start};
use crate::fault::FormFault;
use crate::gather::{gather_ends, gather_fields, scalars_along};
use crate::limit::VARIABLES;
use crate::linear::{Form, Linear};
use crate::work::Work;
use rx_graph::{Elaborated, Message, Path, Spec};
use sqlite_items::Items;
use std::alloc::Global;

/// The rows of the divisions along a path, each at least 0, where its fields begin and how long they are, and the conditions of
/// its links. Variable 0 is the length of the message in bytes, then come the scalars, then the divisions.
#[derive(Drop)]
pub struct Forms {
    /// How many variables there are.
    pub variables: usize,
    pub divisions: Items<Linear>,
    pub firsts: Items<Linear>,
    pub sizes: Items<Linear>,
    pub conditions: Items<Form>,
}

/// What was gathered, as the forms of a path.
pub fn finish(builder: Builder) -> Forms
    ensures { result ≡ forms_in (front_of builder) }
{
    let Builder {
        fields: _fields,
        scalar: _scalar,
        work,
        firsts,
        sizes,
        conditions,
    } = builder;
    let Work { next, rows } = work;
    Forms {
        variables: next,
        divisions: rows,
        firsts,
        sizes,
        conditions,
    }
}

/// Gathers the links of a path into fields, and the condition of its link to null.
#[tactic(none)]
pub fn gather_path(
    alloc: Global,
    path: &[u16],
    message: &Elaborated<'_>,
    builder: &mut Builder,
) -> Result<(), FormFault>
    requires few { builder.old.scalar + scalars_on message.now.domains message.now.graph (into_fields (links_on message.now.domains message.now.graph path.now)) ≤ 190 }
    requires room { builder.old.work.next ≤ 190 }
    ensures gathered { Gathers result (front_of builder.new) (after_route message.now.domains message.now.graph (front_of builder.old) path.now) (route_within message.now.domains message.now.graph (front_of builder.old) path.now) }
    ensures room { OnOk result (builder.new.work.next ≤ 190) }
{
    gather_fields(alloc, path, message, builder)?;
    gather_ends(alloc, path, false, message, builder)
}

// Gathers the links of a path, and the conditions of the links at its end.
#[tactic(none)]
fn gather_all(
    alloc: Global,
    path: &[u16],
    out: &[u16],
    message: &Elaborated<'_>,
    builder: &mut Builder,
) -> Result<(), FormFault>
    requires few { builder.old.scalar + scalars_on message.now.domains message.now.graph (into_fields (links_on message.now.domains message.now.graph path.now)) ≤ 190 }
    requires room { builder.old.work.next ≤ 190 }
    ensures { Gathers result (front_of builder.new) (after_path message.now.domains message.now.graph (front_of builder.old) path.now out.now) (path_within message.now.domains message.now.graph (front_of builder.old) path.now out.now) }
{
    gather_path(alloc, path, message, builder)?;
    gather_ends(alloc, out, true, message, builder)
}

// The forms of a path with so many scalars.
#[tactic(none)]
fn gathered(
    alloc: Global,
    count: usize,
    path: &[u16],
    out: &[u16],
    message: &Elaborated<'_>,
) -> Result<Forms, FormFault>
    requires count { count ≡ scalars_on message.now.domains message.now.graph (into_fields (links_on message.now.domains message.now.graph path.now)) }
    requires few { count < 190 }
    ensures value { IfOk result (λ f. f ≡ forms_along message.now.domains message.now.graph path.now out.now) }
    ensures within { OnOk result (passes_limit message.now.domains message.now.graph path.now out.now ≡ false) }
    ensures limit { IfErr result (λ e. e ≡ FormFault.PathLimit → passes_limit message.now.domains message.now.graph path.now out.now ≡ true) }
{
    let mut builder = start(alloc, count);
    gather_all(alloc, path, out, message, &mut builder)?;
    Ok(finish(builder))
}

/// The forms of a path and of the conditions of the links `out` at its end, both given by places of links.
#[tactic(none)]
pub fn forms_with(
    alloc: Global,
    message: &Elaborated<'_>,
    path: &[u16],
    out: &[u16],
) -> Result<Forms, FormFault>
    ensures value { IfOk result (λ f. f ≡ forms_along message.now.domains message.now.graph path.now out.now) }
    ensures within { OnOk result (passes_limit message.now.domains message.now.graph path.now out.now ≡ false) }
    ensures limit { IfErr result (λ e. e ≡ FormFault.PathLimit → passes_limit message.now.domains message.now.graph path.now out.now ≡ true) }
{
    let count = scalars_along(path, message);
    if count >= VARIABLES {
        return Err(FormFault::PathLimit);
    }
    gathered(alloc, count, path, out, message)
}

/// The forms of a path and of the conditions of the links `out` at its end.
pub fn forms_of(
    alloc: Global,
    message: &Message,
    spec: &Spec,
    path: &Path,
    out: &[u16],
) -> Result<Forms, FormFault>
    requires elaborated { IsElaborated (domains_of spec.now) (graph_of message.now) }
    requires boolean { (d : Domain) → slice_get (domains_of spec.now) 0 ≡ Some d → d ≡ boolean }
    ensures value { IfOk result (λ f. f ≡ forms_along (domains_of spec.now) (graph_of message.now) path.now out.now) }
    ensures within { OnOk result (passes_limit (domains_of spec.now) (graph_of message.now) path.now out.now ≡ false) }
    ensures limit { IfErr result (λ e. e ≡ FormFault.PathLimit → passes_limit (domains_of spec.now) (graph_of message.now) path.now out.now ≡ true) }
{
    let message = Elaborated::over(spec, message);
    forms_with(alloc, &message, path.links(), out)
}
