// A step that derives a row from rows.

/// A row derived from rows that stand before it, counted from 0.
#[derive(Clone, Copy, Debug, PartialEq, Eq)]
pub enum Step {
    /// The sum of two rows, each times its multiplier.
    Combine {
        left: usize,
        left_times: i128,
        right: usize,
        right_times: i128,
    },
    /// The row divided by the greatest common divisor of its coefficients, its constant rounded up.
    Tighten {
        row: usize,
    },
}
