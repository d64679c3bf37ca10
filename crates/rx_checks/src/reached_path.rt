//! A path that is reached, with its forms, of which every goal at its end is asked.

ghost use Rattle.std.specs.Prelude.{◌≡◌, IfOk};
ghost use Rattle.rx_graph.specs.declared.message.Node.TheVariants.{Start};
ghost use Rattle.rx_graph.specs.Checks.{is_node};
ghost use Rattle.rx_graph.specs.Cycles.{IsPath};
ghost use Rattle.rx_prover.specs.Answers.{AnswersWalk};
ghost use Rattle.rx_layout.specs.Goals.{source};
ghost use Rattle.rx_layout.specs.Laws.{IsPoint};
ghost use Rattle.rx_checks.specs.ReachedPath.{path_to, Asks, query_at};
ghost use Rattle.rx_checks.specs.Told.{IsEvidence};

use crate::fault::NoMemory;
use crate::finding::evidence_at;
use crate::node::source;
use crate::verdict::Evidence;
use rx_forms::Checkable;
use rx_graph::{Node, Path};
use rx_layout::{Goal, PathForms, queries_are_bounded, queries_are_even};
use rx_prover::{Answer, Splits, prove};
use std::alloc::Global;
use std::marker::Model;

/// A path to a node of a message, with its forms.
#[derive(Drop)]
pub(crate) struct ReachedPath<'s> {
    message: &'s Checkable<'s>,
    node: Node,
    path: &'s Path,
    forms: PathForms<'s>,
}

impl<'s> Model for ReachedPath<'s> {
    ghost use Rattle.std.specs.Prelude.{◌≡◌};
    ghost use Rattle.rx_graph.specs.declared.message.Node.TheVariants.{Start};
    ghost use Rattle.rx_graph.specs.Cycles.{IsPath};
    ghost use Rattle.rx_layout.specs.TypedPath.{typed_path};
    ghost use Rattle.rx_checks.specs.ReachedPath.{PathTo, path_to, path_to_code};

    ghost Value = { PathTo };

    ghost coded = { path_to_code };

    ghost view = { λ p. path_to p.message.now p.node p.path.now };

    ghost invariant = { λ p. IsPath p.message.now.graph Start p.path.now p.node × (p.forms ≡ typed_path p.message.now p.path.now) };
}

impl<'s> ReachedPath<'s> {
    /// A path to the node, with its forms.
    pub(crate) fn of(
        alloc: Global,
        message: &'s Checkable<'s>,
        node: Node,
        path: &'s Path,
    ) -> Result<ReachedPath<'s>, NoMemory>
        requires { IsPath message.now.graph Start path.now node }
        ensures { IfOk result (λ reached. reached ≡ path_to message.now node path.now) }
    {
        let forms = PathForms::of(alloc, message, path)?;
        Ok(ReachedPath {
            message,
            node,
            path,
            forms,
        })
    }

    /// The path.
    pub(crate) fn path(&self) -> &Path
        ensures { result.now ≡ self.now.path }
    {
        self.path
    }

    /// Whether a goal asks the paths to the node.
    pub(crate) fn is_asked_by(&self, goal: &Goal) -> bool
        ensures { result ≡ is_node (source goal.now) self.now.node }
    {
        source(goal).is(self.node)
    }

    /// How the walk of the query of the path and a goal ends.
    pub(crate) fn ask(&self, alloc: Global, splits: Splits, goal: &Goal) -> Result<Answer, NoMemory>
        requires { Asks goal.now self.now }
        ensures { IfOk result (AnswersWalk (query_at self.now goal.now) splits) }
    {
        let known = self.message.elaborated();
        queries_are_even(known);
        queries_are_bounded(known);
        let query = self.forms.query(alloc, goal)?;
        let answer = prove(alloc, &query, splits.count())?;
        Ok(answer)
    }

    /// The length and the numbers of the path's scalars at a point of the query of the path and a goal.
    pub(crate) fn evidence(
        &self,
        alloc: Global,
        goal: &Goal,
        point: &[i128],
    ) -> Result<Evidence, NoMemory>
        requires goal { Asks goal.now self.now }
        requires point { IsPoint (query_at self.now goal.now) point.now }
        ensures { IfOk result (IsEvidence self.now.domains self.now.graph goal.now self.now.path) }
    {
        evidence_at(alloc, self.message.elaborated(), goal, self.path, point)
    }
}
