// Between which numbers an expression lies.

ghost use Rattle.std.specs.Prelude.{◌≡◌, IfSome, IsTrue, ◌↔◌, pos, ◌<ℤ◌};
ghost use Rattle.std.specs.Int.{int_min, int_max};
ghost use Rattle.rx_types.specs.Narrow.{is_small, is_short, is_divisor, IsShort, from_to, around, negation, product, quotient, remainder, if_short, narrow_by};

use crate::expr::Operator;

/// The numbers from `low` to `high`.
#[derive(Clone, Copy, Debug, PartialEq, Eq)]
pub struct Interval {
    pub low: i128,
    pub high: i128,
}

const LIMIT: i128 = 1 << 100;

/// Whether both ends lie strictly between -2^100 and 2^100.
pub fn is_short(low: i128, high: i128) -> bool
    ensures test { result ≡ is_short (from_to low high) }
    ensures facts { IsTrue result ↔ IsShort (from_to low high) }
{
    is_small(low) && is_small(high)
}

fn is_small(number: i128) -> bool
    ensures { result ≡ is_small number }
{
    -LIMIT < number && number < LIMIT
}

/// Between which numbers a negation lies.
pub fn negation(low: i128, high: i128) -> Interval
    requires { IsShort (from_to low high) }
    ensures interval { result ≡ negation (from_to low high) }
    ensures short { IsShort result }
{
    Interval {
        low: -high,
        high: -low,
    }
}

/// Between which numbers the operator's result lies, if they are within the limits, and the divisor, too.
pub fn bounds(operator: Operator, left: Interval, right: Interval) -> Option<Interval>
    requires left { IsShort left }
    requires right { IsShort right }
    ensures interval { result ≡ narrow_by operator left right }
    ensures short { IfSome result (λ i. IsShort i) }
{
    match operator {
        Operator::Add => within(left.low + right.low, left.high + right.high),
        Operator::Sub => within(left.low - right.high, left.high - right.low),
        Operator::Mul => product(left.low, left.high, right.low, right.high),
        Operator::Div => {
            if !is_divisor(right.low, right.high) {
                return None;
            }
            quotient(left.low, left.high, right.low)
        }
        Operator::Mod => {
            if !is_divisor(right.low, right.high) {
                return None;
            }
            remainder(left.low, left.high, right.low)
        }
        _ => Some(Interval { low: 0, high: 1 }),
    }
}

// Whether the interval is one number, from 1 on and below 2^20.
fn is_divisor(low: i128, high: i128) -> bool
    ensures test { result ≡ is_divisor (from_to low high) }
    ensures positive { IsTrue result → pos 0 <ℤ low }
{
    low == high && 0 < low && low < 1 << 20
}

// The interval, if it is short.
fn within(low: i128, high: i128) -> Option<Interval>
    ensures interval { result ≡ if_short (from_to low high) }
    ensures short { IfSome result (λ i. IsShort i) }
{
    if is_short(low, high) {
        Some(Interval { low, high })
    } else {
        None
    }
}

fn least(a: i128, b: i128, c: i128, d: i128) -> i128
    ensures { result ≡ int_min (int_min a b) (int_min c d) }
{
    a.min(b).min(c.min(d))
}

fn greatest(a: i128, b: i128, c: i128, d: i128) -> i128
    ensures { result ≡ int_max (int_max a b) (int_max c d) }
{
    a.max(b).max(c.max(d))
}

// The interval round four numbers, if it is short.
fn around(a: i128, b: i128, c: i128, d: i128) -> Option<Interval>
    ensures interval { result ≡ if_short (around a b c d) }
    ensures short { IfSome result (λ i. IsShort i) }
{
    within(least(a, b, c, d), greatest(a, b, c, d))
}

// The products of numbers from a to b and numbers from c to d.
fn product(a: i128, b: i128, c: i128, d: i128) -> Option<Interval>
    ensures interval { result ≡ if_short (product (from_to a b) (from_to c d)) }
    ensures short { IfSome result (λ i. IsShort i) }
{
    let ac = a.checked_mul(c)?;
    let ad = a.checked_mul(d)?;
    let bc = b.checked_mul(c)?;
    let bd = b.checked_mul(d)?;
    around(ac, ad, bc, bd)
}

fn quotient(low: i128, high: i128, divisor: i128) -> Option<Interval>
    requires { pos 0 <ℤ divisor }
    ensures interval { result ≡ if_short (quotient (from_to low high) divisor) }
    ensures short { IfSome result (λ i. IsShort i) }
{
    within(low.div_euclid(divisor), high.div_euclid(divisor))
}

fn remainder(low: i128, high: i128, divisor: i128) -> Option<Interval>
    requires { pos 0 <ℤ divisor }
    ensures interval { result ≡ if_short (remainder (from_to low high) divisor) }
    ensures short { IfSome result (λ i. IsShort i) }
{
    if low == high {
        let rest = low.rem_euclid(divisor);
        within(rest, rest)
    } else {
        within(0, divisor - 1)
    }
}
