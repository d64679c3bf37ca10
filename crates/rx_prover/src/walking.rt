// The walk of a node: its leaves are solved, its cases and halvings are walked child by child.
//   the rows are those of the node, put on and taken off at the end on the way down and up
//   the open disjunctions are those from `next` on
ghost use Rattle.std.specs.Prelude.{◌≡◌, ◌+◌, ◌<◌, ◌≤◌, ◌^◌, List, [], ◌∷◌, ℕ, ℤ, pos, ◌+ℤ◌, true, false, length, map, drop, unsigned_abs, IfOk, OnOk};
ghost use Rattle.std.specs.List.{list_all};
ghost use Rattle.rx_linear.specs.Units.{unit_row, at_most, at_least};
ghost use Rattle.rx_proof.specs.Queries.{has_variables, each_has_variables};
ghost use Rattle.rx_proof.specs.declared.proof.Proof as proof;
ghost use Rattle.rx_proof.specs.Acceptance.{entered, with_row};
ghost use Rattle.rx_shadow.specs.Bounds.{HasUnitRows, narrowest, middle};
ghost use Rattle.rx_shadow.specs.Simple.{clashes, outcome, Neither};
ghost use Rattle.rx_prover.specs.Walk.{kind, Halves, Cases, walk_from, in_turn, half_nodes, Past};
ghost use Rattle.rx_prover.specs.Answers.{IsClosed};
ghost use Rattle.rx_prover.specs.Walked.{node_of, Goes, IsLowerDone};

use crate::pending::put;
use crate::walked::{Walked, as_tree, halve_proof, halve_tree, unfinished_case};
use crate::{NoMemory, OpenTree};
use rx_linear::Step;
use rx_proof::{Proof, Query};
use rx_shadow::{JoinedRows, Solved};
use sqlite_items::Items;
use std::alloc::Global;

/// The proof of one step that closes a leaf.
fn closed_by(alloc: Global, step: Step) -> Result<Proof, NoMemory>
    ensures { IfOk result (λ p. p ≡ proof.Close (step ∷ [])) }
{
    let mut steps = Vec::new(alloc);
    steps.push(step)?;
    Ok(Proof::Close(Items::from_vec(steps)))
}

/// The walk of the node with so many splits.
#[cycle(walk)]
pub(crate) fn walk<'a>(
    alloc: Global,
    rows: &mut JoinedRows,
    pending: &mut Vec<&'a Items<Query>>,
    next: usize,
    splits: usize,
) -> Result<Walked, NoMemory>
    requires bounded { HasUnitRows rows.old.variables rows.old.rows }
    requires even { each_has_variables (map (λ d. d.now) (drop next pending.old.items)) rows.old.variables ≡ true }
    ensures goes { IfOk result (Goes (node_of rows.old (map (λ d. d.now) (drop next pending.old.items))) splits) }
    ensures rows { OnOk result (rows.new ≡ rows.old) }
    ensures pending { OnOk result (pending.new.items ≡ pending.old.items) }
{
    if let Some(step) = rows.clash() {
        return Ok(Walked::Closed(closed_by(alloc, step)?, splits));
    }
    if next < pending.len() {
        let branches = pending[next].as_slice();
        walk_cases(alloc, branches, rows, pending, next, splits)
    } else {
        walk_leaf(alloc, rows, pending, next, splits)
    }
}

/// The walk of a node of the branches of its first open disjunction.
#[cycle(walk)]
fn walk_cases<'a>(
    alloc: Global,
    branches: &'a [Query],
    rows: &mut JoinedRows,
    pending: &mut Vec<&'a Items<Query>>,
    next: usize,
    splits: usize,
) -> Result<Walked, NoMemory>
    requires bounded { HasUnitRows rows.old.variables rows.old.rows }
    requires within { next < length pending.old.items }
    requires first { map (λ d. d.now) (drop next pending.old.items) ≡ branches.now ∷ map (λ d. d.now) (drop (next + 1) pending.old.items) }
    requires even { each_has_variables (map (λ d. d.now) (drop next pending.old.items)) rows.old.variables ≡ true }
    requires apart { clashes rows.old.variables rows.old.rows ≡ false }
    ensures goes { IfOk result (Goes (node_of rows.old (map (λ d. d.now) (drop next pending.old.items))) splits) }
    ensures rows { OnOk result (rows.new ≡ rows.old) }
    ensures pending { OnOk result (pending.new.items ≡ pending.old.items) }
{
    if splits == 0 {
        return Ok(Walked::Unfinished(OpenTree::Open));
    }
    let mut left = splits - 1;
    let mut proofs = Vec::new(alloc);
    for branch in branches {
        match walk_branch(alloc, branch, rows, pending, next, left)? {
            Walked::Closed(proof, rest) => {
                proofs.push(proof)?;
                left = rest;
            }
            Walked::Found(point) => return Ok(Walked::Found(point)),
            Walked::Unfinished(tree) => {
                let tree = unfinished_case(alloc, &proofs, tree, branches.len())?;
                return Ok(Walked::Unfinished(tree));
            }
        }
    }
    Ok(Walked::Closed(Proof::Case(0, Items::from_vec(proofs)), left))
}

/// The walk of one branch of the first open disjunction.
#[cycle(walk)]
fn walk_branch<'a>(
    alloc: Global,
    branch: &'a Query,
    rows: &mut JoinedRows,
    pending: &mut Vec<&'a Items<Query>>,
    next: usize,
    splits: usize,
) -> Result<Walked, NoMemory>
    requires bounded { HasUnitRows rows.old.variables rows.old.rows }
    requires within { next < length pending.old.items }
    requires even { each_has_variables (map (λ d. d.now) (drop (next + 1) pending.old.items)) rows.old.variables ≡ true }
    requires branch_even { has_variables branch.now rows.old.variables ≡ true }
    ensures goes { IfOk result (Goes (entered (node_of rows.old (map (λ d. d.now) (drop next pending.old.items))) 0 branch.now) splits) }
    ensures rows { OnOk result (rows.new ≡ rows.old) }
    ensures pending { OnOk result (pending.new.items ≡ pending.old.items) }
{
    let count = rows.len();
    let opened = pending.len();
    rows.join_all(alloc, branch.system.rows())?;
    put(pending, branch.either.as_slice())?;
    let walked = walk(alloc, rows, pending, next + 1, splits)?;
    rows.truncate(count);
    pending.truncate(opened);
    Ok(walked)
}

/// The walk of a node without open disjunctions.
#[cycle(walk)]
fn walk_leaf<'a>(
    alloc: Global,
    rows: &mut JoinedRows,
    pending: &mut Vec<&'a Items<Query>>,
    next: usize,
    splits: usize,
) -> Result<Walked, NoMemory>
    requires bounded { HasUnitRows rows.old.variables rows.old.rows }
    requires none { drop next pending.old.items ≡ [] }
    requires apart { clashes rows.old.variables rows.old.rows ≡ false }
    ensures goes { IfOk result (Goes (node_of rows.old []) splits) }
    ensures rows { OnOk result (rows.new ≡ rows.old) }
    ensures pending { OnOk result (pending.new.items ≡ pending.old.items) }
{
    match rows.solve(alloc)? {
        Solved::Closed(steps) => {
            Ok(Walked::Closed(Proof::Close(Items::from_vec(steps)), splits))
        }
        Solved::Point(point) => Ok(Walked::Found(point)),
        Solved::NotSimple(variable) => walk_halves(alloc, variable, rows, pending, next, splits),
    }
}

/// The walk of a node that halves its narrowest variable.
#[cycle(walk)]
fn walk_halves<'a>(
    alloc: Global,
    variable: usize,
    rows: &mut JoinedRows,
    pending: &mut Vec<&'a Items<Query>>,
    next: usize,
    splits: usize,
) -> Result<Walked, NoMemory>
    requires bounded { HasUnitRows rows.old.variables rows.old.rows }
    requires none { drop next pending.old.items ≡ [] }
    requires apart { clashes rows.old.variables rows.old.rows ≡ false }
    requires hard { outcome rows.old.variables rows.old.rows ≡ Neither }
    requires narrow { variable ≡ narrowest rows.old.variables rows.old.rows }
    ensures goes { IfOk result (Goes (node_of rows.old []) splits) }
    ensures rows { OnOk result (rows.new ≡ rows.old) }
    ensures pending { OnOk result (pending.new.items ≡ pending.old.items) }
{
    if splits == 0 {
        return Ok(Walked::Unfinished(OpenTree::Open));
    }
    let _variables = rows.variables();
    let middle = rows.middle(variable);
    match walk_half(
        alloc,
        variable,
        &-1,
        &-middle,
        rows,
        pending,
        next,
        splits - 1,
    )? {
        Walked::Closed(low, left) => {
            walk_upper(alloc, variable, &middle, low, rows, pending, next, left)
        }
        Walked::Found(point) => Ok(Walked::Found(point)),
        Walked::Unfinished(low) => {
            let tree = halve_tree(alloc, variable, &middle, low, OpenTree::Open)?;
            Ok(Walked::Unfinished(tree))
        }
    }
}

/// The walk of the upper half, once the lower one is closed.
#[cycle(walk)]
fn walk_upper<'a>(
    alloc: Global,
    variable: usize,
    middle: &i128,
    low: Proof,
    rows: &mut JoinedRows,
    pending: &mut Vec<&'a Items<Query>>,
    next: usize,
    left: usize,
) -> Result<Walked, NoMemory>
    requires within { variable < rows.old.variables }
    requires bounded { HasUnitRows rows.old.variables rows.old.rows }
    requires none { drop next pending.old.items ≡ [] }
    requires small { unsigned_abs (middle.now +ℤ pos 1) < 2 ^ 100 }
    ensures goes { IfOk result (λ walked. (splits : ℕ) → IsLowerDone (node_of rows.old []) variable middle.now splits low left → Goes (node_of rows.old []) splits walked) }
    ensures rows { OnOk result (rows.new ≡ rows.old) }
    ensures pending { OnOk result (pending.new.items ≡ pending.old.items) }
{
    match walk_half(
        alloc,
        variable,
        &1,
        &(*middle + 1),
        rows,
        pending,
        next,
        left,
    )? {
        Walked::Closed(high, rest) => {
            let proof = halve_proof(alloc, variable, middle, low, high)?;
            Ok(Walked::Closed(proof, rest))
        }
        Walked::Found(point) => Ok(Walked::Found(point)),
        Walked::Unfinished(high) => {
            let low = as_tree(alloc, &low)?;
            let tree = halve_tree(alloc, variable, middle, low, high)?;
            Ok(Walked::Unfinished(tree))
        }
    }
}

/// The walk of one half: the node with the row of one coefficient.
#[cycle(walk)]
fn walk_half<'a>(
    alloc: Global,
    variable: usize,
    coefficient: &i128,
    least: &i128,
    rows: &mut JoinedRows,
    pending: &mut Vec<&'a Items<Query>>,
    next: usize,
    splits: usize,
) -> Result<Walked, NoMemory>
    requires within { variable < rows.old.variables }
    requires coefficient_small { unsigned_abs coefficient.now < 2 ^ 20 }
    requires least_small { unsigned_abs least.now < 2 ^ 100 }
    requires bounded { HasUnitRows rows.old.variables rows.old.rows }
    requires none { drop next pending.old.items ≡ [] }
    ensures goes { IfOk result (Goes (with_row (node_of rows.old []) (unit_row rows.old.variables variable coefficient.now least.now)) splits) }
    ensures rows { OnOk result (rows.new ≡ rows.old) }
    ensures pending { OnOk result (pending.new.items ≡ pending.old.items) }
{
    let count = rows.len();
    rows.join_unit(alloc, variable, coefficient, least)?;
    let walked = walk(alloc, rows, pending, next, splits)?;
    rows.truncate(count);
    Ok(walked)
}
