// Tests of one row.
ghost use Rattle.std.specs.Prelude.{◌≡◌, ◌<◌, ◌≤◌, ◌^◌, ◌&&◌, length, ℤ, pos, neg_ℤ, int_lt};
ghost use Rattle.std.specs.List.{list_all};
ghost use Rattle.std.specs.Ordering.{int_eq};
ghost use Rattle.rx_linear.specs.Rows.{all_below, is_narrow, Narrow};
ghost use Rattle.rx_linear.specs.Joining.{has_no_variable, is_true, is_false, same_row};
ghost use Rattle.rx_linear.specs.Units.{coefficient};
ghost use Rattle.rx_shadow.specs.Bounds.{zero_elsewhere};

use rx_linear::Row;

/// Whether the two numbers are the same.
fn is_same(left: &i128, right: &i128) -> bool
    ensures { result ≡ int_eq left.now right.now }
{
    *left == *right
}

/// Whether the first number is less.
pub(crate) fn is_less(left: &i128, right: &i128) -> bool
    ensures { result ≡ int_lt left.now right.now }
{
    *left < *right
}

/// Whether the variable's coefficient is positive.
pub(crate) fn is_positive(row: &Row, variable: usize) -> bool
    requires { variable < length row.now.coefficients }
    ensures { result ≡ int_lt (pos 0) (coefficient variable row.now) }
{
    is_less(&0, &row.coefficients.as_slice()[variable])
}

/// Whether the variable's coefficient is negative.
pub(crate) fn is_negative(row: &Row, variable: usize) -> bool
    requires { variable < length row.now.coefficients }
    ensures { result ≡ int_lt (coefficient variable row.now) (pos 0) }
{
    is_less(&row.coefficients.as_slice()[variable], &0)
}

/// Whether no variable occurs in the row.
pub(crate) fn has_no_variable(row: &Row) -> bool
    ensures { result ≡ has_no_variable row.now }
{
    row.coefficients.as_slice().iter().all(|c| *c == 0)
}

/// Whether no variable occurs in the row, and it is true.
pub(crate) fn is_true(row: &Row) -> bool
    ensures { result ≡ is_true row.now }
{
    has_no_variable(row) && !is_less(&0, &row.least)
}

/// Whether no variable occurs in the row, and it is false.
pub(crate) fn is_false(row: &Row) -> bool
    ensures { result ≡ is_false row.now }
{
    has_no_variable(row) && is_less(&0, &row.least)
}

/// Whether the two rows are the same.
pub(crate) fn same_row(left: &Row, right: &Row) -> bool
    ensures { result ≡ same_row left.now right.now }
{
    left.least == right.least && left.coefficients.as_slice() == right.coefficients.as_slice()
}

/// Whether all numbers are 0.
fn all_zero(numbers: &[i128]) -> bool
    ensures { result ≡ list_all (λ c. int_eq c (pos 0)) numbers.now }
{
    numbers.iter().all(|c| *c == 0)
}

/// Whether the variable has that coefficient.
pub(crate) fn has_coefficient(row: &Row, variable: usize, number: &i128) -> bool
    requires { variable < length row.now.coefficients }
    ensures { result ≡ int_eq (coefficient variable row.now) number.now }
{
    is_same(&row.coefficients.as_slice()[variable], number)
}

/// Whether all numbers but the one at that place are 0.
pub(crate) fn is_zero_elsewhere(numbers: &[i128], place: usize) -> bool
    requires { place < length numbers.now }
    ensures { result ≡ zero_elsewhere place numbers.now }
{
    all_zero(&numbers[..place]) && all_zero(&numbers[place + 1..])
}

/// Whether each number is below 2^20 in magnitude.
fn all_small(numbers: &[i128]) -> bool
    ensures { result ≡ all_below (2 ^ 20) numbers.now }
{
    numbers.iter().all(|c| c.unsigned_abs() < 1 << 20)
}

/// Whether the row is within the limits of a row that may be combined.
pub(crate) fn is_narrow(row: &Row) -> bool
    ensures { result ≡ is_narrow row.now }
{
    row.least.unsigned_abs() < 1 << 100 && all_small(row.coefficients.as_slice())
}

/// The variable's coefficient.
pub(crate) fn coefficient(row: &Row, variable: usize) -> i128
    requires length { variable < length row.now.coefficients }
    requires narrow { Narrow row.now }
    ensures { result ≡ coefficient variable row.now }
{
    row.coefficients.as_slice()[variable]
}

/// The negation of the variable's coefficient.
pub(crate) fn negated(row: &Row, variable: usize) -> i128
    requires length { variable < length row.now.coefficients }
    requires narrow { Narrow row.now }
    ensures { result ≡ neg_ℤ (coefficient variable row.now) }
{
    -row.coefficients.as_slice()[variable]
}
