// The truth of a row at a point. A sum of 192 products can pass 128 bits, so it is added in two halves.
ghost use Rattle.std.specs.Prelude.{◌≡◌, ◌*◌, ◌^◌, ◌<◌, ◌≤◌, ◌↔◌, length, IsTrue, ◌*ℤ◌, unsigned_abs};
ghost use Rattle.rx_model.specs.Sums.{product_sum};
ghost use Rattle.rx_linear.specs.Rows.{Holds, Narrow, AllBelow};

use crate::Row;

fn product(coefficient: i128, number: i128) -> i128
    requires coefficient_small { unsigned_abs coefficient < 2 ^ 20 }
    requires number_small { unsigned_abs number < 2 ^ 100 }
    ensures value { result ≡ coefficient *ℤ number }
    ensures bound { unsigned_abs result < 2 ^ 120 }
{
    coefficient * number
}

/// The sum of coefficient times variable, for at most 96 of them.
pub fn sum_of_products(coefficients: &[i128], point: &[i128]) -> i128
    requires same_length { length coefficients.now ≡ length point.now }
    requires few { length coefficients.now ≤ 96 }
    requires coefficients_small { AllBelow (2 ^ 20) coefficients.now }
    requires point_small { AllBelow (2 ^ 100) point.now }
    ensures value { result ≡ product_sum coefficients.now point.now }
    ensures bound { unsigned_abs result ≤ 96 * 2 ^ 120 }
{
    let mut sum = 0;
    for i in 0..coefficients.len() {
        sum += product(coefficients[i], point[i]);
    }
    sum
}

/// Whether the row is true at the point.
pub fn holds_at(row: &Row, point: &[i128]) -> bool
    requires same_length { length row.now.coefficients ≡ length point.now }
    requires few { length point.now ≤ 192 }
    requires narrow { Narrow row.now }
    requires point_small { AllBelow (2 ^ 100) point.now }
    ensures { IsTrue result ↔ Holds row.now point.now }
{
    let coefficients = row.coefficients.as_slice();
    let middle = coefficients.len() / 2;
    let low = sum_of_products(&coefficients[..middle], &point[..middle]);
    let high = sum_of_products(&coefficients[middle..], &point[middle..]);
    row.least - low <= high
}
