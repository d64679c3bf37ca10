// What a walk answers.
use crate::OpenTree;
use rx_proof::Proof;

/// How the walk of a query ended.
#[derive(Drop)]
pub enum Answer {
    /// Each leaf was closed: a proof that the query has no point.
    NoPoint(Proof),
    /// A point that satisfies the query.
    Point(Vec<i128>),
    /// One more inner node was needed than there were splits.
    Undecided(OpenTree),
}
