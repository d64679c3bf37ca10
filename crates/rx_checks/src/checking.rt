//! The verdicts on all checks of a message.

ghost use Rattle.std.specs.Prelude.{◌≡◌, ◌≤◌, Some, IfOk, slice_get};
ghost use Rattle.rx_types.specs.Domain.{Domain, boolean};
ghost use Rattle.rx_graph.specs.Elaborated.{IsElaborated};
ghost use Rattle.rx_graph.specs.Graph.{domains_of, graph_of};
ghost use Rattle.rx_forms.specs.PathLimit.{KeepsLimit};
ghost use Rattle.rx_checks.specs.Reports.{IsReport};

use crate::fault::NoMemory;
use crate::lines::{first_lines, judge_nodes};
use crate::report::Report;
use rx_forms::Checkable;
use rx_graph::{Message, Spec};
use rx_layout::{goals, goals_are_listed};
use rx_prover::Splits;
use std::alloc::Global;

/// A verdict on each check of a message, with what shows it. The walk of a query may take 1 to 4,096 splits.
pub fn check(alloc: Global, message: &Message, spec: &Spec, splits: u32) -> Result<Report, NoMemory>
    requires elaborated { IsElaborated (domains_of spec.now) (graph_of message.now) }
    requires boolean { (d : Domain) → slice_get (domains_of spec.now) 0 ≡ Some d → d ≡ boolean }
    requires limit { KeepsLimit (domains_of spec.now) (graph_of message.now) }
    requires few { (1 ≤ splits) × (splits ≤ 4096) }
    ensures { IfOk result (IsReport (domains_of spec.now) (graph_of message.now) splits) }
{
    let message = Checkable::over(spec, message);
    let splits = Splits::of(splits);
    report_of(alloc, &message, splits)
}

/// A verdict on each check of a message that can be checked, with what shows it.
pub fn report_of(alloc: Global, message: &Checkable<'_>, splits: Splits) -> Result<Report, NoMemory>
    ensures { IfOk result (IsReport message.now.domains message.now.graph splits) }
{
    let known = message.elaborated();
    goals_are_listed(known);
    let goals = goals(alloc, known)?;
    let mut lines = first_lines(alloc, &goals)?;
    judge_nodes(alloc, message, splits, &mut lines)?;
    Ok(Report { lines })
}
