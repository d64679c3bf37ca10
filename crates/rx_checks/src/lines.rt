//! The lines of a message's goals, judged node by node, and at a node path by path.
//!
//! - Each line begins with the verdict over no paths.
//! - At a node its paths are listed. Only they are in memory, at most 4,096.
//! - A path's forms are made once, and each goal that asks the paths to the node has its query from them.
//! - The verdict on the paths so far becomes the one on the next path too.

ghost use Rattle.std.specs.Prelude.{◌≡◌, ◌≤◌, ◌∷◌, [], List, ℕ, map, IfOk, OnOk};
ghost use Rattle.rx_types.specs.Domain.{Domain};
ghost use Rattle.rx_graph.specs.declared.message.Node.TheVariants.{Start};
ghost use Rattle.rx_graph.specs.Cycles.{IsPath, ArePathsTo};
ghost use Rattle.rx_graph.specs.Graph.{Graph};
ghost use Rattle.rx_layout.specs.Goals.{IsGoal};
ghost use Rattle.rx_checks.specs.Lines.{AreGoals, AreFirst, AllStand, IsNextLine, AreNextLines};
ghost use Rattle.rx_checks.specs.Verdicts.{IsVerdict};

use crate::fault::NoMemory;
use crate::judging::{first_verdict, next_verdict};
use crate::node::{node_at, paths_of};
use crate::reached_path::ReachedPath;
use crate::report::Line;
use rx_forms::Checkable;
use rx_graph::{Node, Path};
use rx_layout::Goal;
use rx_prover::Splits;
use std::alloc::Global;
use std::mem::replace;

/// The goal with the verdict over no paths.
fn first_line(alloc: Global, goal: &Goal) -> Line
    ensures goal { result.goal ≡ goal.now }
    ensures first { (domains : List Domain) (m : Graph) (splits : ℕ) → IsVerdict domains m splits result.goal [] result.verdict }
{
    Line {
        goal: *goal,
        verdict: first_verdict(alloc, goal),
    }
}

/// A line for each goal, with the verdict over no paths.
pub(crate) fn first_lines(alloc: Global, goals: &[Goal]) -> Result<Vec<Line>, NoMemory>
    ensures goals { IfOk result (λ lines. map (λ line. line.goal) lines.items ≡ goals.now) }
    ensures first { IfOk result (λ lines. (domains : List Domain) (m : Graph) (splits : ℕ) → AreFirst domains m splits lines.items) }
{
    let mut lines = Vec::new(alloc);
    for goal in goals {
        lines.push(first_line(alloc, goal))?;
    }
    Ok(lines)
}

/// Judges one more path for a line, where the line's goal asks the paths to its node.
fn judge_line(
    alloc: Global,
    path: &ReachedPath<'_>,
    splits: Splits,
    line: &mut Line,
) -> Result<(), NoMemory>
    requires { IsGoal path.now.domains path.now.graph line.old.goal }
    ensures { OnOk result (IsNextLine path.now.domains path.now.graph splits path.now.node (path.now.path ∷ []) line.old line.new) }
{
    if path.is_asked_by(&line.goal) {
        let unjudged = first_verdict(alloc, &line.goal);
        let verdict = replace(&mut line.verdict, unjudged);
        line.verdict = next_verdict(alloc, path, splits, &line.goal, verdict)?;
    }
    Ok(())
}

/// Judges one more path for each line.
fn judge_lines(
    alloc: Global,
    path: &ReachedPath<'_>,
    splits: Splits,
    lines: &mut [Line],
) -> Result<(), NoMemory>
    requires { AreGoals path.now.domains path.now.graph lines.old }
    ensures { OnOk result (AreNextLines path.now.domains path.now.graph splits path.now.node (path.now.path ∷ []) lines.old lines.new) }
{
    for line in lines.iter_mut() {
        judge_line(alloc, path, splits, line)?;
    }
    Ok(())
}

/// Judges one more path to the node for each line. The forms of the path are made here, once.
fn judge_path(
    alloc: Global,
    message: &Checkable<'_>,
    splits: Splits,
    node: Node,
    path: &Path,
    lines: &mut [Line],
) -> Result<(), NoMemory>
    requires path { IsPath message.now.graph Start path.now node }
    requires goals { AreGoals message.now.domains message.now.graph lines.old }
    ensures { OnOk result (AreNextLines message.now.domains message.now.graph splits node (path.now ∷ []) lines.old lines.new) }
{
    let path = ReachedPath::of(alloc, message, node, path)?;
    judge_lines(alloc, &path, splits, lines)
}

/// Judges all paths to the node, one after the other.
fn judge_node(
    alloc: Global,
    message: &Checkable<'_>,
    splits: Splits,
    node: Node,
    lines: &mut [Line],
) -> Result<(), NoMemory>
    requires { AreGoals message.now.domains message.now.graph lines.old }
    ensures { OnOk result ((paths : List (List ℕ)) × ArePathsTo message.now.graph node paths × AreNextLines message.now.domains message.now.graph splits node paths lines.old lines.new) }
{
    let paths = paths_of(alloc, message.elaborated(), node)?;
    for path in &paths {
        judge_path(alloc, message, splits, node, path, lines)?;
    }
    Ok(())
}

/// Judges the paths to every node, one node after the other.
pub(crate) fn judge_nodes(
    alloc: Global,
    message: &Checkable<'_>,
    splits: Splits,
    lines: &mut [Line],
) -> Result<(), NoMemory>
    requires goals { AreGoals message.now.domains message.now.graph lines.old }
    requires first { AreFirst message.now.domains message.now.graph splits lines.old }
    ensures goals { OnOk result (map (λ line. line.goal) lines.new ≡ map (λ line. line.goal) lines.old) }
    ensures stand { OnOk result (AllStand message.now.domains message.now.graph splits lines.new) }
{
    message.is_checkable();
    for place in 0..message.elaborated().fields().len() + 1 {
        judge_node(alloc, message, splits, node_at(place), lines)?;
    }
    Ok(())
}
