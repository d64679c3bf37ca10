//! A field's place and number as sums.
use crate::linear::Linear;
use rx_types::FieldId;

/// A field of a path: where it begins, how long it is and where it ends, in bits, and the variable of its number, if it is a
/// scalar.
#[derive(Debug, Drop)]
pub struct FieldForms {
    pub field: FieldId,
    pub first: Linear,
    pub size: Linear,
    pub end: Linear,
    pub variable: Option<usize>,
}
