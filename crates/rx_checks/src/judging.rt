//! The verdict on one check, from the verdict on the paths so far and the walk of one more.

ghost use Rattle.std.specs.Prelude.{◌≡◌, ◌≢◌, List, [], ◌∷◌, ◌++◌, ℕ, IfOk, MatchOption};
ghost use Rattle.rx_types.specs.Domain.{Domain};
ghost use Rattle.rx_graph.specs.Graph.{Graph};
ghost use Rattle.rx_prover.specs.Walk.{AtPoint};
ghost use Rattle.rx_layout.specs.Goals.{is_universal};
ghost use Rattle.rx_layout.specs.Laws.{IsPoint};
ghost use Rattle.rx_checks.specs.ReachedPath.{Asks, query_at};
ghost use Rattle.rx_checks.specs.Verdicts.{walk_of, AreClosed, IsVerdict};
ghost use Rattle.rx_checks.specs.Told.{told, NoneAtPoint, IsNextVerdict};

use crate::fault::NoMemory;
use crate::reached_path::ReachedPath;
use crate::verdict::{Evidence, Verdict};
use rx_graph::Path;
use rx_layout::Goal;
use rx_proof::Proof;
use rx_prover::{Answer, OpenTree, Splits};
use std::alloc::Global;

/// Whether the goal speaks of every path to its source, and not of one.
fn is_universal(goal: &Goal) -> bool
    ensures { result ≡ is_universal goal.now }
{
    match goal {
        Goal::Taken(_, _) => false,
        Goal::Reached(_) => false,
        _ => true,
    }
}

/// The evidence with the verdict that it shows.
fn told(passes: bool, evidence: Evidence) -> Verdict
    ensures { result ≡ told passes evidence }
{
    if passes {
        Verdict::Passed(evidence)
    } else {
        Verdict::Failed(evidence)
    }
}

/// The verdict by a proof for each path.
fn closed(goal: &Goal, proofs: Vec<Proof>) -> Verdict
    ensures { (domains : List Domain) (m : Graph) (splits : ℕ) (paths : List (List ℕ)) → AreClosed domains m splits goal.now paths proofs.items → IsVerdict domains m splits goal.now paths result }
{
    told(is_universal(goal), Evidence::Proofs(proofs))
}

/// The verdict over no paths.
pub(crate) fn first_verdict(alloc: Global, goal: &Goal) -> Verdict
    ensures { (domains : List Domain) (m : Graph) (splits : ℕ) → IsVerdict domains m splits goal.now [] result }
{
    closed(goal, Vec::new(alloc))
}

/// The verdict by a point of a path, behind paths without one.
fn found(
    alloc: Global,
    path: &ReachedPath<'_>,
    goal: &Goal,
    point: &[i128],
) -> Result<Verdict, NoMemory>
    requires goal { Asks goal.now path.now }
    requires point { IsPoint (query_at path.now goal.now) point.now }
    ensures { IfOk result (λ verdict. (splits : ℕ) (before : List (List ℕ)) → NoneAtPoint path.now.domains path.now.graph splits goal.now before → walk_of path.now.domains path.now.graph splits goal.now path.now.path ≡ AtPoint → IsVerdict path.now.domains path.now.graph splits goal.now (before ++ path.now.path ∷ []) verdict) }
{
    let evidence = path.evidence(alloc, goal, point)?;
    Ok(told(!is_universal(goal), evidence))
}

/// The verdict by a path whose walk needs more splits.
fn undecided(alloc: Global, path: &ReachedPath<'_>, tree: OpenTree) -> Result<Verdict, NoMemory>
    ensures { IfOk result (λ verdict. verdict ≡ Verdict.Undecided path.now.path tree) }
{
    let path = path.path().copy(alloc)?;
    Ok(Verdict::Undecided { path, tree })
}

/// The verdict on one more path, behind paths that have proofs.
fn behind_proofs(
    alloc: Global,
    path: &ReachedPath<'_>,
    splits: Splits,
    goal: &Goal,
    mut proofs: Vec<Proof>,
) -> Result<Verdict, NoMemory>
    requires { Asks goal.now path.now }
    ensures { IfOk result (λ verdict. (before : List (List ℕ)) → AreClosed path.now.domains path.now.graph splits goal.now before proofs.items → IsVerdict path.now.domains path.now.graph splits goal.now (before ++ path.now.path ∷ []) verdict) }
{
    match path.ask(alloc, splits, goal)? {
        Answer::NoPoint(proof) => {
            proofs.push(proof)?;
            Ok(closed(goal, proofs))
        }
        Answer::Point(point) => found(alloc, path, goal, &point),
        Answer::Undecided(tree) => undecided(alloc, path, tree),
    }
}

/// The point to which the walk of the query of the path and the goal comes, if it comes to one.
fn point_of(
    alloc: Global,
    path: &ReachedPath<'_>,
    splits: Splits,
    goal: &Goal,
) -> Result<Option<Vec<i128>>, NoMemory>
    requires { Asks goal.now path.now }
    ensures { IfOk result (λ point. MatchOption point (walk_of path.now.domains path.now.graph splits goal.now path.now.path ≢ AtPoint) (λ p. (walk_of path.now.domains path.now.graph splits goal.now path.now.path ≡ AtPoint) × IsPoint (query_at path.now goal.now) p.items)) }
{
    match path.ask(alloc, splits, goal)? {
        Answer::NoPoint(_) => Ok(None),
        Answer::Point(point) => Ok(Some(point)),
        Answer::Undecided(_) => Ok(None),
    }
}

/// The verdict on one more path, behind a path whose walk needs more splits: by the point of this one, if it has one.
fn behind_undecided(
    alloc: Global,
    path: &ReachedPath<'_>,
    splits: Splits,
    goal: &Goal,
    first: Path,
    tree: OpenTree,
) -> Result<Verdict, NoMemory>
    requires { Asks goal.now path.now }
    ensures { IfOk result (IsNextVerdict path.now.domains path.now.graph splits goal.now (path.now.path ∷ []) (Verdict.Undecided first tree)) }
{
    match point_of(alloc, path, splits, goal)? {
        Some(point) => found(alloc, path, goal, &point),
        None => Ok(Verdict::Undecided { path: first, tree }),
    }
}

/// The verdict on one more path, behind paths that have proofs or of which one has a point. That point stays.
fn behind_evidence(
    alloc: Global,
    path: &ReachedPath<'_>,
    splits: Splits,
    goal: &Goal,
    passes: bool,
    evidence: Evidence,
) -> Result<Verdict, NoMemory>
    requires { Asks goal.now path.now }
    ensures { IfOk result (IsNextVerdict path.now.domains path.now.graph splits goal.now (path.now.path ∷ []) (told passes evidence)) }
{
    match evidence {
        Evidence::Proofs(proofs) => behind_proofs(alloc, path, splits, goal, proofs),
        shown => Ok(told(passes, shown)),
    }
}

/// The verdict on one more path, from the verdict on the paths before it.
pub(crate) fn next_verdict(
    alloc: Global,
    path: &ReachedPath<'_>,
    splits: Splits,
    goal: &Goal,
    verdict: Verdict,
) -> Result<Verdict, NoMemory>
    requires { Asks goal.now path.now }
    ensures { IfOk result (IsNextVerdict path.now.domains path.now.graph splits goal.now (path.now.path ∷ []) verdict) }
{
    match verdict {
        Verdict::Passed(evidence) => behind_evidence(alloc, path, splits, goal, true, evidence),
        Verdict::Failed(evidence) => behind_evidence(alloc, path, splits, goal, false, evidence),
        Verdict::Undecided { path: first, tree } => {
            behind_undecided(alloc, path, splits, goal, first, tree)
        }
    }
}
