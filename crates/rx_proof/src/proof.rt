// Proofs that a query has no point.
use rx_linear::Step;
use sqlite_items::{Boxed, Items};

/// A proof that a node has no point.
#[derive(Drop)]
pub enum Proof {
    /// The open disjunction at that place, and a proof for each of its branches.
    Case(usize, Items<Proof>),
    /// A variable and a number: a proof where the variable is at most the number, and one where it is above.
    Halve(usize, i128, Boxed<Proof>, Boxed<Proof>),
    /// Steps that derive a row that is false.
    Close(Items<Step>),
}
