//! The checks of a message with their verdicts.

use crate::verdict::Verdict;
use rx_layout::Goal;

/// A check and its verdict.
#[derive(Drop)]
pub struct Line {
    pub goal: Goal,
    pub verdict: Verdict,
}

/// A line for each check of a message, in order.
#[derive(Drop)]
pub struct Report {
    pub lines: Vec<Line>,
}
