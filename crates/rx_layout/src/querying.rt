//! The query of a path and a goal.

ghost use Rattle.std.specs.Prelude.{◌≡◌, Some, IfOk, slice_get};
ghost use Rattle.rx_types.specs.Domain.{Domain, boolean};
ghost use Rattle.rx_graph.specs.declared.message.Node.TheVariants.{Start};
ghost use Rattle.rx_graph.specs.Cycles.{IsPath};
ghost use Rattle.rx_graph.specs.Elaborated.{IsElaborated};
ghost use Rattle.rx_graph.specs.Graph.{domains_of, graph_of};
ghost use Rattle.rx_forms.specs.PathLimit.{KeepsLimit};
ghost use Rattle.rx_layout.specs.Goals.{source, IsGoal};
ghost use Rattle.rx_layout.specs.QueryOf.{query_for};

use crate::fault::NoMemory;
use crate::goal::Goal;
use crate::path_forms::PathForms;
use rx_forms::Checkable;
use rx_graph::{Message, Path, Spec};
use rx_proof::Query;
use std::alloc::Global;

/// The query of a path to a goal's source. Its points, cut to the length and the scalars, are the numbers of the partial path that
/// meet the goal.
pub fn query(
    alloc: Global,
    message: &Message,
    spec: &Spec,
    path: &Path,
    goal: &Goal,
) -> Result<Query, NoMemory>
    requires elaborated { IsElaborated (domains_of spec.now) (graph_of message.now) }
    requires boolean { (d : Domain) → slice_get (domains_of spec.now) 0 ≡ Some d → d ≡ boolean }
    requires limit { KeepsLimit (domains_of spec.now) (graph_of message.now) }
    requires goal { IsGoal (domains_of spec.now) (graph_of message.now) goal.now }
    requires path { IsPath (graph_of message.now) Start path.now (source goal.now) }
    ensures { IfOk result (λ query. query ≡ query_for (domains_of spec.now) (graph_of message.now) goal.now path.now) }
{
    let checkable = Checkable::over(spec, message);
    let forms = PathForms::of(alloc, &checkable, path)?;
    forms.query(alloc, goal)
}
