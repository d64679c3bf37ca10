// The sum of two rows, each times its multiplier.
ghost use Rattle.std.specs.Prelude.{◌≡◌, ◌^◌, ◌<◌, ◌≤◌, length, IfOk, List, ℤ, ◌+ℤ◌, ◌*ℤ◌, unsigned_abs};
ghost use Rattle.rx_linear.specs.Rows.{Holds, combined, Narrow, Wide, IsMultiplier};

use crate::{NoMemory, Row};
use sqlite_items::Items;
use std::alloc::Global;

/// `left_times * left + right_times * right`.
pub fn weighted(left: i128, left_times: i128, right: i128, right_times: i128) -> i128
    requires left_small { unsigned_abs left < 2 ^ 100 }
    requires right_small { unsigned_abs right < 2 ^ 100 }
    requires left_times_small { unsigned_abs left_times < 2 ^ 20 }
    requires right_times_small { unsigned_abs right_times < 2 ^ 20 }
    ensures { result ≡ left_times *ℤ left +ℤ right_times *ℤ right }
{
    left_times * left + right_times * right
}

/// The sum of two rows, each times its multiplier.
pub fn combine(
    alloc: Global,
    left: &Row,
    left_times: i128,
    right: &Row,
    right_times: i128,
) -> Result<Row, NoMemory>
    requires same_length { length left.now.coefficients ≡ length right.now.coefficients }
    requires left_narrow { Narrow left.now }
    requires right_narrow { Narrow right.now }
    requires left_multiplier { IsMultiplier left_times }
    requires right_multiplier { IsMultiplier right_times }
    ensures value { IfOk result (λ row. row ≡ combined left.now left_times right.now right_times) }
    ensures sound { IfOk result (λ row. (point : List ℤ) → Holds left.now point → Holds right.now point → Holds row point) }
    ensures wide { IfOk result Wide }
{
    let left_coefficients = left.coefficients.as_slice();
    let right_coefficients = right.coefficients.as_slice();
    let mut coefficients = Vec::with_capacity(alloc, left_coefficients.len())?;
    for i in 0..left_coefficients.len() {
        let left_coefficient = left_coefficients[i];
        let right_coefficient = right_coefficients[i];
        let coefficient = weighted(left_coefficient, left_times, right_coefficient, right_times);
        coefficients.push(coefficient)?;
    }
    let least = weighted(left.least, left_times, right.least, right_times);
    Ok(Row {
        coefficients: Items::from_vec(coefficients),
        least,
    })
}
