//! Why a field is not put.

/// Why a field is not put. The first that holds is told.
#[derive(Clone, Copy, Debug, PartialEq, Eq)]
pub enum PutFault {
    /// Another field is the next, or none.
    NotNext,
    /// The number is none of the field's type.
    Value,
    /// The bytes are not as long as the field.
    Size,
    /// The field does not lie within the message.
    Short,
    /// The field lies over another, whose bits differ.
    Overlay,
}
