// How the walk of one node ended, and the proofs and trees of nodes from those of their children.
ghost use Rattle.std.specs.Prelude.{◌≡◌, ◌∷◌, ◌++◌, ◌+◌, ◌-◌, ◌<◌, map, length, replicate, IfOk};
ghost use Rattle.rx_proof.specs.declared.proof.Proof as proof;
ghost use Rattle.rx_prover.specs.declared.tree.OpenTree as tree;
ghost use Rattle.rx_prover.specs.Trees.{as_tree};

use crate::{NoMemory, OpenTree};
use rx_proof::Proof;
use sqlite_items::{Boxed, Items};
use std::alloc::Global;

/// How the walk of a node ended.
#[derive(Drop)]
pub(crate) enum Walked {
    /// Each leaf was closed: the proof, and how many splits are left.
    Closed(Proof, usize),
    /// A leaf had this point.
    Found(Vec<i128>),
    /// One more inner node was needed than there were splits.
    Unfinished(OpenTree),
}

/// The proof of a halving.
pub(crate) fn halve_proof(
    alloc: Global,
    variable: usize,
    middle: &i128,
    low: Proof,
    high: Proof,
) -> Result<Proof, NoMemory>
    ensures { IfOk result (λ p. p ≡ proof.Halve variable middle.now low high) }
{
    let low = Boxed::new(alloc, low)?;
    let high = Boxed::new(alloc, high)?;
    Ok(Proof::Halve(variable, *middle, low, high))
}

/// The tree of a halving.
pub(crate) fn halve_tree(
    alloc: Global,
    variable: usize,
    middle: &i128,
    low: OpenTree,
    high: OpenTree,
) -> Result<OpenTree, NoMemory>
    ensures { IfOk result (λ t. t ≡ tree.Halve variable middle.now low high) }
{
    let low = Boxed::new(alloc, low)?;
    let high = Boxed::new(alloc, high)?;
    Ok(OpenTree::Halve(variable, *middle, low, high))
}

/// The proof as a tree.
#[cycle(as_tree)]
pub(crate) fn as_tree(alloc: Global, proof: &Proof) -> Result<OpenTree, NoMemory>
    ensures { IfOk result (λ t. t ≡ as_tree proof.now) }
{
    match proof {
        Proof::Close(steps) => Ok(OpenTree::Close(Items::from_slice(alloc, steps.as_slice())?)),
        Proof::Halve(variable, middle, low, high) => {
            let low = as_tree(alloc, low.get())?;
            let high = as_tree(alloc, high.get())?;
            halve_tree(alloc, *variable, middle, low, high)
        }
        Proof::Case(place, proofs) => {
            let trees = as_trees(alloc, proofs.as_slice())?;
            Ok(OpenTree::Case(*place, Items::from_vec(trees)))
        }
    }
}

/// The proofs as trees.
#[cycle(as_tree)]
fn as_trees(alloc: Global, proofs: &[Proof]) -> Result<Vec<OpenTree>, NoMemory>
    ensures { IfOk result (λ trees. trees.items ≡ map as_tree proofs.now) }
{
    let mut trees = Vec::new(alloc);
    for proof in proofs {
        trees.push(as_tree(alloc, proof)?)?;
    }
    Ok(trees)
}

/// The tree of a case of so many branches: the proofs of the first ones, the tree of the next one, and nothing for the others.
pub(crate) fn unfinished_case(
    alloc: Global,
    proofs: &[Proof],
    next: OpenTree,
    count: usize,
) -> Result<OpenTree, NoMemory>
    requires { length proofs.now < count }
    ensures { IfOk result (λ t. t ≡ tree.Case 0 (map as_tree proofs.now ++ next ∷ replicate (count - (length proofs.now + 1)) tree.Open)) }
{
    let mut trees = as_trees(alloc, proofs)?;
    trees.push(next)?;
    for _ in proofs.len() + 1..count {
        trees.push(OpenTree::Open)?;
    }
    Ok(OpenTree::Case(0, Items::from_vec(trees)))
}
