// The unit bounds of variables.
ghost use Rattle.std.specs.Prelude.{◌≡◌, ◌≢◌, ◌<◌, ◌^◌, ◌-ℤ◌, ◌+ℤ◌, unsigned_abs, None, false, ◌⊎◌, length, IfSome, IsSomeAnd, Some, true, pos, negsuc, neg_ℤ, int_lt, int_le, ◌&&◌, ◌||◌, option_map, map, ℤ, MatchOption};
ghost use Rattle.std.specs.List.{All, Contains, filter};
ghost use Rattle.std.specs.Int.{int_div_euclid};
ghost use Rattle.std.specs.Ordering.{int_eq};
ghost use Rattle.rx_linear.specs.Rows.{Narrow};
ghost use Rattle.rx_linear.specs.Units.{is_unit_row};
ghost use Rattle.rx_shadow.specs.Bounds.{greatest_of, raised, bounds_clash, fixed_value, width, narrowest, middle};
ghost use Rattle.rx_shadow.specs.Known.{rows_of, AllFit};
ghost use Rattle.rx_shadow.specs.BoundRows.{AreBounds, LacksBound};
ghost use Rattle.rx_shadow.specs.Derivations.{IsClosing};

use crate::known::Known;
use crate::rows::is_less;
use rx_linear::Step;

/// The one with the greater constant.
fn greater<'a>(best: Option<&'a Known>, next: &'a Known) -> &'a Known
    ensures value { result.now.row.least ≡ raised (option_map (λ k. k.now.row.least) best.entry) next.now.row.least }
    ensures one { (result.now ≡ next.now) ⊎ IsSomeAnd best.entry (λ k. result.now ≡ k.now) }
{
    match best {
        Some(known) if is_less(&next.row.row().least, &known.row.row().least) => known,
        _ => next,
    }
}

/// Of the unit rows with that coefficient of the variable, the one with the greatest constant.
pub(crate) fn greatest_unit<'a>(
    variable: usize,
    number: &i128,
    known: &'a [Known],
) -> Option<&'a Known>
    requires within { All (λ k. variable < length k.row.coefficients) known.now }
    requires some { number.now ≢ pos 0 }
    ensures bound { option_map (λ k. k.now.row.least) result ≡ greatest_of (map (λ row. row.least) (filter (is_unit_row variable number.now) (rows_of known.now))) }
    ensures among { IfSome result (λ k. Contains known.now k.now) }
    ensures unit { IfSome result (λ k. is_unit_row variable number.now k.now.row ≡ true) }
{
    let mut greatest = None;
    for next in known {
        if next.row.is_unit(variable, number) {
            greatest = Some(greater(greatest, next));
        }
    }
    greatest
}

/// The unit rows of the variable with the greatest lower and the least upper bound.
pub(crate) fn bounds(variable: usize, known: &[Known]) -> Option<(&Known, &Known)>
    requires { All (λ k. variable < length k.row.coefficients) known.now }
    ensures { MatchOption result (LacksBound variable known.now) (λ pair. AreBounds variable known.now pair.0.now pair.1.now) }
{
    let low = greatest_unit(variable, &1, known)?;
    let high = greatest_unit(variable, &-1, known)?;
    Some((low, high))
}

/// Whether the lower bound exceeds the negation of the other constant.
fn exceeds(low: &i128, high: &i128) -> bool
    requires low_small { unsigned_abs low.now < 2 ^ 100 }
    requires high_small { unsigned_abs high.now < 2 ^ 100 }
    ensures { result ≡ int_lt (neg_ℤ high.now) low.now }
{
    -*high < *low
}

/// Whether the lower bound is the negation of the other constant.
fn is_negation(low: &i128, high: &i128) -> bool
    requires low_small { unsigned_abs low.now < 2 ^ 100 }
    requires high_small { unsigned_abs high.now < 2 ^ 100 }
    ensures { result ≡ int_eq low.now (neg_ℤ high.now) }
{
    *low == -*high
}

/// How far the negation of the other constant is above the lower bound.
fn distance(low: &i128, high: &i128) -> i128
    requires low_small { unsigned_abs low.now < 2 ^ 100 }
    requires high_small { unsigned_abs high.now < 2 ^ 100 }
    ensures { result ≡ neg_ℤ high.now -ℤ low.now }
{
    -*high - *low
}

/// The step that shows that the bounds of the variable clash.
pub(crate) fn bounds_clash(variable: usize, variables: usize, known: &[Known]) -> Option<Step>
    requires variable { variable < variables }
    requires fit { AllFit variables known.now }
    ensures { MatchOption result (bounds_clash variable (rows_of known.now) ≡ false) (λ step. (bounds_clash variable (rows_of known.now) ≡ true) × IsClosing known.now step) }
{
    let (low, high) = bounds(variable, known)?;
    if exceeds(&low.row.row().least, &high.row.row().least) {
        Some(Step::Combine {
            left: low.number,
            left_times: 1,
            right: high.number,
            right_times: 1,
        })
    } else {
        None
    }
}

/// The bound rows of the variable, where it is fixed.
pub(crate) fn fixed_bounds(
    variable: usize,
    variables: usize,
    known: &[Known],
) -> Option<(&Known, &Known)>
    requires variable { variable < variables }
    requires fit { AllFit variables known.now }
    ensures { MatchOption result (fixed_value variable (rows_of known.now) ≡ None) (λ pair. AreBounds variable known.now pair.0.now pair.1.now × (fixed_value variable (rows_of known.now) ≡ Some pair.0.now.row.least) × (pair.0.now.row.least ≡ neg_ℤ pair.1.now.row.least)) }
{
    let (low, high) = bounds(variable, known)?;
    if is_negation(&low.row.row().least, &high.row.row().least) {
        Some((low, high))
    } else {
        None
    }
}

/// One less than the number of values of the variable between its bounds, or 0 where one is missing.
fn width(variable: usize, variables: usize, known: &[Known]) -> i128
    requires variable { variable < variables }
    requires fit { AllFit variables known.now }
    ensures { result ≡ width (rows_of known.now) variable }
{
    match bounds(variable, known) {
        Some((low, high)) => distance(&low.row.row().least, &high.row.row().least),
        None => 0,
    }
}

/// Whether the first width is that of two or more values, and the second that of fewer than two or of more than the first.
fn is_narrower(first: &i128, second: &i128) -> bool
    ensures { result ≡ (int_lt (pos 0) first.now && (int_le second.now (pos 0) || int_lt first.now second.now)) }
{
    *first > 0 && (*second <= 0 || *first < *second)
}

/// The variable with the fewest values of those with two or more, on a tie the least; 0 where there is none.
pub(crate) fn narrowest(variables: usize, known: &[Known]) -> usize
    requires { AllFit variables known.now }
    ensures { result ≡ narrowest variables (rows_of known.now) }
{
    if variables == 0 {
        return 0;
    }
    let mut best = 0;
    let mut least = width(0, variables, known);
    for variable in 1..variables {
        let next = width(variable, variables, known);
        if is_narrower(&next, &least) {
            best = variable;
            least = next;
        }
    }
    best
}

/// The number half way from the lower bound to the negation of the other constant, rounded down.
fn half_way(low: &i128, high: &i128) -> i128
    requires low_small { unsigned_abs low.now < 2 ^ 100 }
    requires high_small { unsigned_abs high.now < 2 ^ 100 }
    ensures { result ≡ low.now +ℤ int_div_euclid (neg_ℤ high.now -ℤ low.now) (pos 2) }
{
    *low + distance(low, high).div_euclid(2)
}

/// The middle of the values of the variable between its bounds, or 0 where one is missing.
pub(crate) fn middle(variable: usize, variables: usize, known: &[Known]) -> i128
    requires variable { variable < variables }
    requires fit { AllFit variables known.now }
    ensures { result ≡ middle variable (rows_of known.now) }
{
    match bounds(variable, known) {
        Some((low, high)) => half_way(&low.row.row().least, &high.row.row().least),
        None => 0,
    }
}
