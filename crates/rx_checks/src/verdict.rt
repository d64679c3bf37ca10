//! What became of a check.

use rx_graph::Path;
use rx_proof::Proof;
use rx_prover::OpenTree;

/// What shows a verdict.
#[derive(Drop)]
pub enum Evidence {
    /// For each path to the check's source, in order of link numbers, a proof that its query has no point.
    Proofs(Vec<Proof>),
    /// The first path whose query has a point: a length in bytes, and a number for each scalar of the path in its order.
    Found {
        path: Path,
        length: u32,
        numbers: Vec<u64>,
    },
}

/// What became of a check with a number of splits.
#[derive(Drop)]
pub enum Verdict {
    Passed(Evidence),
    Failed(Evidence),
    /// The first path whose walk needs more splits, and the tree of that walk.
    Undecided { path: Path, tree: OpenTree },
}
