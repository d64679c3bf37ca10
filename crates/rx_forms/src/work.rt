//! Divisions along a path: the number of the next variable, and the rows so far.
use crate::linear::Linear;
use sqlite_items::Items;

/// The number of the next division's variable, and the rows of the divisions before it.
#[derive(Drop)]
pub struct Work {
    pub next: usize,
    pub rows: Items<Linear>,
}
