// Rows in one flat buffer: a row over some variables is its coefficients from a base on, and its constant behind them.
ghost use Rattle.std.specs.Prelude.{◌≡◌, ◌+◌, ◌<◌, ◌≤◌, ◌^◌, length, take, drop, map, slice_range, pos, ◌<ℤ◌, unsigned_abs, ◌*◌};
ghost use Rattle.std.specs.List.{list_all, list_any};
ghost use Rattle.std.specs.Ordering.{int_eq};
ghost use Rattle.std.specs.Int.{int_div_euclid};
ghost use Rattle.rx_model.specs.Sums.{weighted_sum};
ghost use Rattle.rx_linear.specs.Rows.{AllBelow, Narrow, Wide, IsMultiplier, combined, tight, is_narrow, is_multiplier, all_below};
ghost use Rattle.rx_linear.specs.Joining.{same_row, is_true, is_false, joined_one};
ghost use Rattle.rx_linear.specs.Cells.{row_of, rows_of, can_combine, is_narrow_row};
ghost use Rattle.rx_linear.specs.Units.{unit, unit_row};

use crate::Row;
use crate::combining::weighted;
use crate::tightening::common_divisor;

/// Writes the weighted sum of two runs of numbers behind both.
fn weighted_at(
    cells: &mut [i128],
    width: usize,
    left: usize,
    left_times: i128,
    right: usize,
    right_times: i128,
    target: usize,
)
    requires left_before { left + width ≤ target }
    requires right_before { right + width ≤ target }
    requires room { target + width ≤ length cells.old }
    requires left_small { AllBelow (2 ^ 100) (slice_range cells.old left (left + width)) }
    requires right_small { AllBelow (2 ^ 100) (slice_range cells.old right (right + width)) }
    requires left_times_small { unsigned_abs left_times < 2 ^ 20 }
    requires right_times_small { unsigned_abs right_times < 2 ^ 20 }
    ensures value { slice_range cells.new target (target + width) ≡ weighted_sum (slice_range cells.old left (left + width)) left_times (slice_range cells.old right (right + width)) right_times }
    ensures before { take target cells.new ≡ take target cells.old }
{
    for i in 0..width {
        let left_number = cells[left + i];
        let right_number = cells[right + i];
        let number = weighted(left_number, left_times, right_number, right_times);
        cells[target + i] = number;
    }
}

/// Writes the sum of two rows, each times its multiplier, behind both.
pub fn combine_at(
    cells: &mut [i128],
    variables: usize,
    left: usize,
    left_times: i128,
    right: usize,
    right_times: i128,
    target: usize,
)
    requires left_before { left + variables < target }
    requires right_before { right + variables < target }
    requires room { target + variables < length cells.old }
    requires left_narrow { Narrow (row_of variables (drop left cells.old)) }
    requires right_narrow { Narrow (row_of variables (drop right cells.old)) }
    requires left_multiplier { IsMultiplier left_times }
    requires right_multiplier { IsMultiplier right_times }
    ensures value { row_of variables (drop target cells.new) ≡ combined (row_of variables (drop left cells.old)) left_times (row_of variables (drop right cells.old)) right_times }
    ensures before { take target cells.new ≡ take target cells.old }
{
    weighted_at(
        cells,
        variables + 1,
        left,
        left_times,
        right,
        right_times,
        target,
    );
}

/// Copies a run of numbers behind itself.
fn copy_at(cells: &mut [i128], width: usize, from: usize, target: usize)
    requires from_before { from + width ≤ target }
    requires room { target + width ≤ length cells.old }
    ensures value { slice_range cells.new target (target + width) ≡ slice_range cells.old from (from + width) }
    ensures before { take target cells.new ≡ take target cells.old }
{
    cells.copy_within(from..from + width, target);
}

/// Whether the rows at two bases are equal.
pub fn same_row_at(cells: &[i128], variables: usize, left: usize, right: usize) -> bool
    requires left_room { left + variables < length cells.now }
    requires right_room { right + variables < length cells.now }
    ensures { result ≡ same_row (row_of variables (drop left cells.now)) (row_of variables (drop right cells.now)) }
{
    let left_end = left + variables;
    let right_end = right + variables;
    cells[left_end] == cells[right_end] && cells[left..left_end] == cells[right..right_end]
}

/// Whether all numbers are below 2^20 in magnitude.
pub fn all_small(numbers: &[i128]) -> bool
    ensures { result ≡ all_below (2 ^ 20) numbers.now }
{
    numbers.iter().all(|number| number.unsigned_abs() < 1 << 20)
}

/// Whether all numbers are 0.
fn all_zero(numbers: &[i128]) -> bool
    ensures { result ≡ list_all (λ c. int_eq c (pos 0)) numbers.now }
{
    numbers.iter().all(|number| *number == 0)
}

/// Whether the row at the base may be combined.
pub fn is_narrow_at(cells: &[i128], variables: usize, at: usize) -> bool
    requires { at + variables < length cells.now }
    ensures { result ≡ is_narrow (row_of variables (drop at cells.now)) }
{
    let end = at + variables;
    all_small(&cells[at..end]) && cells[end].unsigned_abs() < 1 << 100
}

/// Whether the row at the base has no variable and is true.
pub fn is_true_at(cells: &[i128], variables: usize, at: usize) -> bool
    requires { at + variables < length cells.now }
    ensures { result ≡ is_true (row_of variables (drop at cells.now)) }
{
    let end = at + variables;
    all_zero(&cells[at..end]) && cells[end] <= 0
}

/// Whether the row at the base has no variable and is false.
pub fn is_false_at(cells: &[i128], variables: usize, at: usize) -> bool
    requires { at + variables < length cells.now }
    ensures { result ≡ is_false (row_of variables (drop at cells.now)) }
{
    let end = at + variables;
    all_zero(&cells[at..end]) && cells[end] > 0
}

/// Divides each number by the divisor, rounding down.
fn divide_each(numbers: &mut [i128], divisor: i128)
    requires { pos 0 <ℤ divisor }
    ensures { numbers.new ≡ map (λ z. int_div_euclid z divisor) numbers.old }
{
    for i in 0..numbers.len() {
        let number = numbers[i];
        numbers[i] = number.div_euclid(divisor);
    }
}

/// Makes the row at the base tight, in place.
pub fn tighten_at(cells: &mut [i128], variables: usize, at: usize)
    requires room { at + variables < length cells.old }
    requires wide { Wide (row_of variables (drop at cells.old)) }
    ensures value { row_of variables (drop at cells.new) ≡ tight (row_of variables (drop at cells.old)) }
    ensures before { take at cells.new ≡ take at cells.old }
    ensures after { drop (at + variables + 1) cells.new ≡ drop (at + variables + 1) cells.old }
{
    let end = at + variables;
    let divisor = common_divisor(&cells[at..end]);
    if divisor > 1 {
        let divisor = divisor as i128;
        let least = cells[end];
        divide_each(&mut cells[at..end], divisor);
        cells[end] = -((-least).div_euclid(divisor));
    }
}

/// Writes a row at the base.
fn write_row_at(cells: &mut [i128], variables: usize, at: usize, row: &Row)
    requires room { at + variables < length cells.old }
    requires same_length { length row.now.coefficients ≡ variables }
    ensures value { row_of variables (drop at cells.new) ≡ row.now }
    ensures before { take at cells.new ≡ take at cells.old }
{
    let end = at + variables;
    cells[at..end].copy_from_slice(row.coefficients.as_slice());
    cells[end] = row.least;
}

/// Writes 0 everywhere but at one variable.
fn make_unit(numbers: &mut [i128], variable: usize, coefficient: &i128)
    requires { variable < length numbers.old }
    ensures { numbers.new ≡ unit (length numbers.old) variable coefficient.now }
{
    numbers.fill(0);
    numbers[variable] = *coefficient;
}

/// Writes the row with one coefficient at the base.
fn write_unit_at(
    cells: &mut [i128],
    variables: usize,
    at: usize,
    variable: usize,
    coefficient: &i128,
    least: &i128,
)
    requires room { at + variables < length cells.old }
    requires within { variable < variables }
    ensures value { row_of variables (drop at cells.new) ≡ unit_row variables variable coefficient.now least.now }
    ensures before { take at cells.new ≡ take at cells.old }
{
    let end = at + variables;
    make_unit(&mut cells[at..end], variable, coefficient);
    cells[end] = *least;
}

/// Whether the row at the base is one of the first `count` rows.
fn is_among(cells: &[i128], variables: usize, count: usize, at: usize) -> bool
    requires few { variables ≤ 192 }
    requires room { count * (variables + 1) ≤ length cells.now }
    requires here { at + variables < length cells.now }
    ensures { result ≡ list_any (same_row (row_of variables (drop at cells.now))) (rows_of variables count cells.now) }
{
    for row in 0..count {
        if same_row_at(cells, variables, at, row * (variables + 1)) {
            return true;
        }
    }
    false
}

/// Makes the row behind the first `count` rows tight and joins it to them; the result is how many rows there are then.
pub fn join_at(cells: &mut [i128], variables: usize, count: usize) -> usize
    requires few { variables ≤ 192 }
    requires room { count * (variables + 1) + variables < length cells.old }
    requires wide { Wide (row_of variables (drop (count * (variables + 1)) cells.old)) }
    ensures value { rows_of variables result cells.new ≡ joined_one (rows_of variables count cells.old) (tight (row_of variables (drop (count * (variables + 1)) cells.old))) }
    ensures count { result ≤ count + 1 }
    ensures before { take (count * (variables + 1)) cells.new ≡ take (count * (variables + 1)) cells.old }
{
    let top = count * (variables + 1);
    tighten_at(cells, variables, top);
    if is_true_at(cells, variables, top) {
        return count;
    }
    if is_among(cells, variables, count, top) {
        return count;
    }
    count + 1
}

/// Joins a row to the first `count` rows; the result is how many rows there are then.
pub fn join_row_at(cells: &mut [i128], variables: usize, count: usize, row: &Row) -> usize
    requires few { variables ≤ 192 }
    requires room { count * (variables + 1) + variables < length cells.old }
    requires same_length { length row.now.coefficients ≡ variables }
    requires wide { Wide row.now }
    ensures value { rows_of variables result cells.new ≡ joined_one (rows_of variables count cells.old) (tight row.now) }
    ensures count { result ≤ count + 1 }
{
    write_row_at(cells, variables, count * (variables + 1), row);
    join_at(cells, variables, count)
}

/// Joins the row with one coefficient to the first `count` rows; the result is how many rows there are then.
pub fn join_unit_at(
    cells: &mut [i128],
    variables: usize,
    count: usize,
    variable: usize,
    coefficient: &i128,
    least: &i128,
) -> usize
    requires few { variables ≤ 192 }
    requires room { count * (variables + 1) + variables < length cells.old }
    requires within { variable < variables }
    requires wide { Wide (unit_row variables variable coefficient.now least.now) }
    ensures value { rows_of variables result cells.new ≡ joined_one (rows_of variables count cells.old) (tight (unit_row variables variable coefficient.now least.now)) }
    ensures count { result ≤ count + 1 }
{
    write_unit_at(
        cells,
        variables,
        count * (variables + 1),
        variable,
        coefficient,
        least,
    );
    join_at(cells, variables, count)
}

/// Writes the tight row of a row behind it.
pub fn copy_tight_at(cells: &mut [i128], variables: usize, from: usize, target: usize)
    requires few { variables ≤ 192 }
    requires from_before { from + variables < target }
    requires room { target + variables < length cells.old }
    requires wide { Wide (row_of variables (drop from cells.old)) }
    ensures value { row_of variables (drop target cells.new) ≡ tight (row_of variables (drop from cells.old)) }
    ensures before { take target cells.new ≡ take target cells.old }
{
    copy_at(cells, variables + 1, from, target);
    tighten_at(cells, variables, target);
}

/// Whether a row may be multiplied by the number in a sum.
fn is_multiplier(number: i128) -> bool
    ensures { result ≡ is_multiplier number }
{
    number >= 0 && number.unsigned_abs() < 1 << 20
}

/// Whether the row is one of the first `count` and within the limits.
fn is_narrow_row(cells: &[i128], variables: usize, count: usize, row: usize) -> bool
    requires few { variables ≤ 192 }
    requires room { count * (variables + 1) ≤ length cells.now }
    ensures { result ≡ is_narrow_row variables count cells.now row }
{
    row < count && is_narrow_at(cells, variables, row * (variables + 1))
}

/// Whether two of the first `count` rows are there and within the limits, and so are their multipliers.
pub fn can_combine(
    cells: &[i128],
    variables: usize,
    count: usize,
    left: usize,
    left_times: i128,
    right: usize,
    right_times: i128,
) -> bool
    requires few { variables ≤ 192 }
    requires room { count * (variables + 1) ≤ length cells.now }
    ensures { result ≡ can_combine variables count cells.now left left_times right right_times }
{
    if !is_multiplier(left_times) {
        return false;
    }
    if !is_multiplier(right_times) {
        return false;
    }
    if !is_narrow_row(cells, variables, count, left) {
        return false;
    }
    is_narrow_row(cells, variables, count, right)
}
