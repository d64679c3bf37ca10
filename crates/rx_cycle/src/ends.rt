//! The ends of a link.

/// A link, by the numbers of the nodes that it goes from and to.
#[derive(Clone, Copy, Debug, PartialEq, Eq)]
pub struct Ends {
    pub source: usize,
    pub target: usize,
}
