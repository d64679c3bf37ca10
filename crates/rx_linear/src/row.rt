// A row of a system.
use sqlite_items::Items;

/// The sum of coefficient times variable is at least `least`.
#[derive(Debug, Drop)]
pub struct Row {
    pub coefficients: Items<i128>,
    pub least: i128,
}
