//! Why a valuation is not written.
use rx_types::FieldId;

/// Why the walk with a valuation does not go on.
#[derive(Clone, Copy, Debug, PartialEq, Eq)]
pub enum UnfitReason {
    /// No link's condition is true.
    Condition,
    /// The valuation lacks the next field.
    Missing,
    /// The number is none of the field's type.
    Value,
    /// The bytes are not as long as the field.
    Size,
    /// The field does not lie within the message.
    Short,
    /// The field lies over another, whose bits differ.
    Overlay,
}

/// Why a valuation is not written.
#[derive(Clone, Copy, Debug, PartialEq, Eq)]
pub enum WriteFault {
    /// The message needs so many bytes, and the buffer has so many.
    NoRoom(usize, usize),
    /// The walk does not go on from the last field of the path, or to the next one.
    Unsatisfied(Option<FieldId>, UnfitReason),
    /// The path ends, and lacks this field of the valuation.
    Unused(FieldId),
}

/// The buffer into which a valuation was not written, and why.
#[derive(Drop)]
pub struct Unfit<'b> {
    pub buffer: &'b mut [u8],
    pub why: WriteFault,
}
