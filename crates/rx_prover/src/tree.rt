// What a walk that ran out of splits came to.
use rx_linear::Step;
use sqlite_items::{Boxed, Items};

/// The inner nodes that a walk came to before it ran out of splits.
#[derive(Drop)]
pub enum OpenTree {
    /// The open disjunction at that place, and a tree for each of its branches.
    Case(usize, Items<OpenTree>),
    /// A variable and a number: a tree where the variable is at most the number, and one where it is above.
    Halve(usize, i128, Boxed<OpenTree>, Boxed<OpenTree>),
    /// Steps that derive a row that is false.
    Close(Items<Step>),
    /// The walk did not come to an end here.
    Open,
}
