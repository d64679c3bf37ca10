//! What is known of an expression, and what an operator makes of it.

ghost use Rattle.std.specs.Prelude.{◌≡◌, None, IfSome, pos, ◌≤ℤ◌};
ghost use Rattle.std.specs.Prelude.{nat_abs};
ghost use Rattle.std.specs.Int.{int_pow};
ghost use Rattle.rx_types.specs.Narrow.{IsShort, if_short, single};
ghost use Rattle.rx_types.specs.Static.{is_arithmetic};
ghost use Rattle.rx_judge.specs.Kinds.{operator_of, is_number, is_truth, same_kind, takes, is_linear, is_static_divisor, bounds_by, kind_of, keeps_static, keeps_constant, about_both};

use rx_types::{Interval, Kind, Operator};

/// What is known of an expression: what it is, whether it is written with numbers and operators alone,
/// whether it is True or False itself, whether its value is one number, and between which numbers that lies.
#[derive(Clone, Copy, Debug, PartialEq, Eq)]
pub struct About {
    pub kind: Kind,
    pub is_static: bool,
    pub is_literal: bool,
    pub is_constant: bool,
    pub interval: Interval,
}

/// The operator of the expression; None for `**`, which leaves its value.
pub fn operator_of(operator: rx_syntax::Operator) -> Option<Operator>
    ensures { result ≡ operator_of operator }
{
    match operator {
        rx_syntax::Operator::Or => Some(Operator::Or),
        rx_syntax::Operator::And => Some(Operator::And),
        rx_syntax::Operator::Equal => Some(Operator::Equal),
        rx_syntax::Operator::NotEqual => Some(Operator::NotEqual),
        rx_syntax::Operator::Less => Some(Operator::Less),
        rx_syntax::Operator::LessEqual => Some(Operator::LessEqual),
        rx_syntax::Operator::Greater => Some(Operator::Greater),
        rx_syntax::Operator::GreaterEqual => Some(Operator::GreaterEqual),
        rx_syntax::Operator::Add => Some(Operator::Add),
        rx_syntax::Operator::Sub => Some(Operator::Sub),
        rx_syntax::Operator::Mul => Some(Operator::Mul),
        rx_syntax::Operator::Div => Some(Operator::Div),
        rx_syntax::Operator::Mod => Some(Operator::Mod),
        rx_syntax::Operator::Power => None,
    }
}

pub fn is_number(kind: Kind) -> bool
    ensures { result ≡ is_number kind }
{
    matches!(kind, Kind::Number)
}

pub fn is_truth(kind: Kind) -> bool
    ensures { result ≡ is_truth kind }
{
    matches!(kind, Kind::Truth)
}

fn same_kind(left: Kind, right: Kind) -> bool
    ensures { result ≡ same_kind left right }
{
    match (left, right) {
        (Kind::Number, Kind::Number) => true,
        (Kind::Truth, Kind::Truth) => true,
        (Kind::Of(a), Kind::Of(b)) => a == b,
        _ => false,
    }
}

/// Whether the operator takes the kinds of its operands.
pub fn takes(operator: Option<Operator>, left: About, right: About) -> bool
    ensures { result ≡ takes operator left right }
{
    match operator {
        Some(Operator::Or | Operator::And) => is_truth(left.kind) && is_truth(right.kind),
        Some(Operator::Equal | Operator::NotEqual) => {
            same_kind(left.kind, right.kind)
                && (!is_truth(left.kind) || left.is_literal || right.is_literal)
        }
        _ => is_number(left.kind) && is_number(right.kind),
    }
}

fn is_static_divisor(right: About) -> bool
    ensures { result ≡ is_static_divisor right }
{
    right.is_static && 0 < right.interval.low
}

/// Whether what the operator multiplies, divides or raises by is static and in its range.
pub fn is_linear(operator: Option<Operator>, left: About, right: About) -> bool
    ensures { result ≡ is_linear operator left right }
{
    match operator {
        Some(Operator::Mul) => left.is_static || right.is_static,
        Some(Operator::Div | Operator::Mod) => is_static_divisor(right),
        Some(_) => true,
        None => {
            left.is_static
                && right.is_static
                && 0 <= right.interval.low
                && right.interval.low <= 127
        }
    }
}

fn power(base: i128, exponent: i128) -> Option<Interval>
    requires above { pos 0 ≤ℤ exponent }
    requires below { exponent ≤ℤ pos 127 }
    ensures interval { result ≡ if_short (single (int_pow base (nat_abs exponent))) }
    ensures short { IfSome result (λ i. IsShort i) }
{
    let value = base.checked_pow(exponent as u32)?;
    if !rx_types::is_short(value, value) {
        return None;
    }
    Some(Interval {
        low: value,
        high: value,
    })
}

/// Between which numbers the operator's result lies, if they are within the limits, and the divisor, too.
pub fn bounds_by(operator: Option<Operator>, left: Interval, right: Interval) -> Option<Interval>
    requires left { IsShort left }
    requires right { IsShort right }
    requires exponent { operator ≡ None → (pos 0 ≤ℤ right.low) × (right.low ≤ℤ pos 127) }
    ensures interval { result ≡ bounds_by operator left right }
    ensures short { IfSome result (λ i. IsShort i) }
{
    match operator {
        Some(operator) => rx_types::bounds(operator, left, right),
        None => power(left.low, right.low),
    }
}

fn is_arithmetic(operator: Operator) -> bool
    ensures { result ≡ is_arithmetic operator }
{
    matches!(rx_types::kind_of(operator), Kind::Number)
}

/// What is known of the operator's result, which lies in the interval.
pub fn about_both(
    operator: Option<Operator>,
    left: About,
    right: About,
    interval: Interval,
) -> About
    ensures { result ≡ about_both operator left right interval }
{
    match operator {
        Some(operator) => About {
            kind: rx_types::kind_of(operator),
            is_static: is_arithmetic(operator) && left.is_static && right.is_static,
            is_literal: false,
            is_constant: is_arithmetic(operator) && left.is_constant && right.is_constant,
            interval,
        },
        None => About {
            kind: Kind::Number,
            is_static: left.is_static && right.is_static,
            is_literal: false,
            is_constant: true,
            interval,
        },
    }
}
