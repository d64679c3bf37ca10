//! Linear forms, and facts that they make.
use sqlite_items::Items;

/// The sum of coefficient times variable, plus a constant.
#[derive(Debug, Drop)]
pub struct Linear {
    pub coefficients: Items<i128>,
    pub constant: i128,
}

/// A fact about the variables.
#[derive(Drop)]
pub enum Form {
    /// The sum is at least 0.
    AtLeast(Linear),
    /// All of these hold.
    All(Items<Form>),
    /// One of these holds.
    Any(Items<Form>),
}
