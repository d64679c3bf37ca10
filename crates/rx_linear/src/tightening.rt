// Division of a row by the greatest common divisor of its coefficients.
ghost use Rattle.std.specs.Prelude.{◌≡◌, ◌^◌, ◌<◌, ◌<ℤ◌, ◌↔◌, IfOk, List, ℤ, pos, map};
ghost use Rattle.std.specs.Int.{IsGcd, int_div_euclid};
ghost use Rattle.rx_linear.specs.Rows.{Holds, tight, Wide, AllBelow};
ghost use Rattle.rx_linear.specs.Divisors.{IsGreatestCommonDivisor, common_divisor_of, divided_down, divided_up};

use crate::{NoMemory, Row};
use sqlite_items::Items;
use std::alloc::Global;

/// The greatest common divisor of two numbers.
fn greatest_common_divisor(left: u64, right: u64) -> u64
    ensures { IsGcd left right result }
{
    let mut divisor = left;
    let mut rest = right;
    while rest != 0 {
        let remainder = divisor % rest;
        divisor = rest;
        rest = remainder;
    }
    divisor
}

/// The greatest common divisor of the coefficients, or 0 where all are 0.
pub fn common_divisor(coefficients: &[i128]) -> u64
    requires { AllBelow (2 ^ 41) coefficients.now }
    ensures value { result ≡ common_divisor_of coefficients.now }
    ensures greatest { IsGreatestCommonDivisor coefficients.now result }
{
    let mut divisor = 0;
    for coefficient in coefficients {
        if divisor == 1 {
            return 1;
        }
        let magnitude = coefficient.unsigned_abs() as u64;
        divisor = greatest_common_divisor(divisor, magnitude);
    }
    divisor
}

/// Divides each number by the divisor, rounding down.
fn divide_each(numbers: &mut Items<i128>, divisor: i128)
    requires positive { pos 0 <ℤ divisor }
    requires small { AllBelow (2 ^ 41) numbers.old }
    ensures { numbers.new ≡ map (λ z. int_div_euclid z divisor) numbers.old }
{
    for i in 0..numbers.len() {
        let number = numbers.as_slice()[i];
        numbers.set(i, number.div_euclid(divisor));
    }
}

/// The row divided by a number, its constant rounded up.
fn divided(row: Row, divisor: u64) -> Row
    requires positive { 0 < divisor }
    requires small { divisor < 2 ^ 41 }
    requires wide { Wide row }
    ensures coefficients { result.coefficients ≡ map (λ z. divided_down z divisor) row.coefficients }
    ensures least { result.least ≡ divided_up row.least divisor }
{
    let Row {
        mut coefficients,
        least,
    } = row;
    let divisor = divisor as i128;
    divide_each(&mut coefficients, divisor);
    Row {
        coefficients,
        least: -((-least).div_euclid(divisor)),
    }
}

/// The row divided by the greatest common divisor of its coefficients, its constant rounded up, in the row's own place.
pub fn tightened(row: Row) -> Row
    requires { Wide row }
    ensures { result ≡ tight row }
{
    let divisor = common_divisor(row.coefficients.as_slice());
    if divisor > 1 {
        divided(row, divisor)
    } else {
        row
    }
}

/// The row divided by the greatest common divisor of its coefficients, its constant rounded up.
pub fn tighten(alloc: Global, row: &Row) -> Result<Row, NoMemory>
    requires { Wide row.now }
    ensures value { IfOk result (λ t. t ≡ tight row.now) }
    ensures sound { IfOk result (λ t. (point : List ℤ) → Holds row.now point ↔ Holds t point) }
{
    let coefficients = Items::from_slice(alloc, row.coefficients.as_slice())?;
    Ok(tightened(Row {
        coefficients,
        least: row.least,
    }))
}
