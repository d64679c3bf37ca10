// Back substitution: the least value of a variable at which its rows hold.
ghost use Rattle.std.specs.Prelude.{◌≡◌, ◌*◌, ◌^◌, ◌<◌, ◌≤◌, ◌*ℤ◌, ◌-ℤ◌, ◌≤ℤ◌, ◌<ℤ◌, length, MatchOption, ℤ, pos, negsuc, true, unsigned_abs, slice_set, slice_index_or, int_lt, set, get_or};
ghost use Rattle.std.specs.List.{All, list_any};
ghost use Rattle.rx_model.specs.Sums.{product_sum};
ghost use Rattle.rx_linear.specs.Rows.{AllBelow, Narrow};
ghost use Rattle.rx_linear.specs.Joining.{holds, all_hold};
ghost use Rattle.rx_linear.specs.Units.{coefficient, is_unit_row};
ghost use Rattle.rx_linear.specs.Divisors.{divided_up};
ghost use Rattle.rx_shadow.specs.Known.{rows_of, AllFit};
ghost use Rattle.rx_shadow.specs.Placing.{IsRaised};
ghost use Rattle.rx_shadow.specs.Solving.{CanPlace, IsPlaced};

use crate::bounds::greatest_unit;
use crate::known::Known;
use crate::rows::{coefficient, is_positive};
use crate::solving::Solved;
use rx_linear::{Row, sum_of_products};

/// How much the row lacks at the point, where it does not hold.
fn lack(row: &Row, point: &[i128]) -> Option<i128>
    requires same_length { length row.now.coefficients ≡ length point.now }
    requires few { length point.now ≤ 192 }
    requires narrow { Narrow row.now }
    requires point_small { AllBelow (2 ^ 100) point.now }
    requires little { (row.now.least -ℤ product_sum row.now.coefficients point.now) ≤ℤ pos (2 ^ 126) }
    ensures { MatchOption result (holds point.now row.now ≡ true) (λ d. (d ≡ row.now.least -ℤ product_sum row.now.coefficients point.now) × (pos 0 <ℤ d)) }
{
    let coefficients = row.coefficients.as_slice();
    let middle = coefficients.len() / 2;
    let low = sum_of_products(&coefficients[..middle], &point[..middle]);
    let high = sum_of_products(&coefficients[middle..], &point[middle..]);
    let rest = row.least - low;
    if rest <= high {
        None
    } else {
        Some(rest - high)
    }
}

/// The number divided by the other, rounded up.
fn quotient(number: i128, divisor: i128) -> i128
    requires number_small { unsigned_abs number < 2 ^ 126 }
    requires divisor_positive { pos 0 <ℤ divisor }
    ensures { result ≡ divided_up number (unsigned_abs divisor) }
{
    -((-number).div_euclid(divisor))
}

/// Raises the variable to the least number at which the row holds, where it does not.
fn raise(variable: usize, row: &Row, point: &mut [i128])
    requires within { variable < length point.old }
    requires same_length { length row.now.coefficients ≡ length point.old }
    requires few { length point.old ≤ 192 }
    requires narrow { Narrow row.now }
    requires positive { int_lt (pos 0) (coefficient variable row.now) ≡ true }
    requires small { AllBelow (2 ^ 100) point.old }
    requires possible { (w : ℤ) × (get_or point.old variable (pos 0) ≤ℤ w) × (unsigned_abs w < 2 ^ 100) × (holds (set point.old variable w) row.now ≡ true) }
    ensures { IsRaised variable row.now point.old point.new }
{
    if let Some(missing) = lack(row, point) {
        let more = quotient(missing, coefficient(row, variable));
        point[variable] += more;
    }
}

/// Gives the variable the least number at which the rows hold.
fn place(variable: usize, leaving: &[Known], point: &mut [i128])
    requires within { variable < length point.old }
    requires leaving_fit { AllFit (length point.old) leaving.now }
    requires few { length point.old ≤ 192 }
    requires small { AllBelow (2 ^ 100) point.old }
    requires lower { list_any (is_unit_row variable (pos 1)) (rows_of leaving.now) ≡ true }
    requires upper { list_any (is_unit_row variable (negsuc 0)) (rows_of leaving.now) ≡ true }
    requires possible { (w : ℤ) × (all_hold (set point.old variable w) (rows_of leaving.now) ≡ true) }
    ensures value { (v : ℤ) × (point.new ≡ set point.old variable v) }
    ensures small { AllBelow (2 ^ 100) point.new }
    ensures holds { all_hold point.new (rows_of leaving.now) ≡ true }
{
    if let Some(low) = greatest_unit(variable, &1, leaving) {
        point[variable] = low.row.row().least;
    }
    for k in leaving {
        if is_positive(k.row.row(), variable) {
            raise(variable, k.row.row(), point);
        }
    }
}

/// The answer for the rows with the variable too: in a point it gets its number.
pub(crate) fn with_value(variable: usize, leaving: &[Known], solved: Solved) -> Solved
    requires lower { list_any (is_unit_row variable (pos 1)) (rows_of leaving.now) ≡ true }
    requires upper { list_any (is_unit_row variable (negsuc 0)) (rows_of leaving.now) ≡ true }
    requires possible { CanPlace variable leaving.now solved }
    ensures { IsPlaced variable leaving.now solved result }
{
    match solved {
        Solved::Point(mut point) => {
            place(variable, leaving, point.as_mut_slice());
            Solved::Point(point)
        }
        other => other,
    }
}
