// Why no path fits a buffer.
use crate::expr::FieldId;

/// Why the longest path that a buffer has goes no further.
#[derive(Clone, Copy, Debug, PartialEq, Eq)]
pub enum Reason {
    /// No link's condition is true.
    Condition,
    /// The message does not end where the path does.
    Trailing,
    /// The next field does not lie in the buffer.
    Short,
    /// The next field's number is none of its type.
    Value,
}

/// The reason, and the field that it names, if any.
#[derive(Clone, Copy, Debug, PartialEq, Eq)]
pub struct Stuck {
    pub reason: Reason,
    pub field: Option<FieldId>,
}
