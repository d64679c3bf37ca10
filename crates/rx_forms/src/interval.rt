//! Intervals and values of narrow expressions.

ghost use Rattle.std.specs.Prelude.{◌≡◌, ℕ, ◌^◌, ◌<◌, ◌-◌, pos, Some, None};
ghost use Rattle.rx_types.specs.Domain.{domain_of, greatest_of, greatest, numbers_of};
ghost use Rattle.rx_types.specs.Narrow.{interval_of, interval_by, IsNarrow, IsShort, IsDivisorIn};
ghost use Rattle.rx_types.specs.Static.{is_arithmetic, is_static, static_value};
ghost use Rattle.rx_types.specs.Tree.{tree_of};
ghost use Rattle.rx_forms.specs.Code.{limits};

use rx_graph::Elaborated;
use rx_types::{
    Env, Expr, FieldId, Interval, Literal, Operator, ScalarType, bounds, negation, value,
};

/// Whether an expression is made of numbers and arithmetic alone.
pub fn is_static(expr: &Expr) -> bool
    ensures { result ≡ is_static (tree_of expr.now) }
{
    match expr {
        Expr::Number(_) => true,
        Expr::Neg(part) => is_static(part),
        Expr::Binary(operator, left, right) => {
            is_arithmetic(*operator) && is_static(left) && is_static(right)
        }
        _ => false,
    }
}

// Whether an operator adds, subtracts, multiplies or divides.
fn is_arithmetic(operator: Operator) -> bool
    ensures { result ≡ is_arithmetic operator }
{
    match operator {
        Operator::Add | Operator::Sub | Operator::Mul | Operator::Div | Operator::Mod => true,
        _ => false,
    }
}

/// The value of a static expression.
pub fn static_number(expr: &Expr) -> i128
    requires narrow { (limit : ℕ → ℕ) × IsNarrow limit (tree_of expr.now) }
    ensures { result ≡ static_value (tree_of expr.now) }
{
    value(expr, &Env::new(0))
}

// The greatest number of an enumeration's literals.
fn greatest_literal(literals: &[Literal]) -> u64
    ensures { result ≡ greatest (numbers_of literals.now) }
{
    let mut most = 0;
    for literal in literals {
        most = most.max(literal.number);
    }
    most
}

// The greatest number of a type.
fn greatest(scalar: &ScalarType) -> i128
    requires small { greatest_of (domain_of scalar.now) < 2 ^ 100 }
    ensures { result ≡ pos (greatest_of (domain_of scalar.now)) }
{
    match scalar {
        ScalarType::Integer { last, .. } => *last as i128,
        ScalarType::Enumeration {
            literals,
            size,
            always_valid,
        } => {
            if *always_valid {
                all_ones(*size)
            } else {
                greatest_literal(literals.as_slice()) as i128
            }
        }
    }
}

// The greatest number of a size.
fn all_ones(size: u8) -> i128
    requires small { 2 ^ size - 1 < 2 ^ 100 }
    ensures { result ≡ pos (2 ^ size - 1) }
{
    (1 << size) - 1
}

// The greatest number of a field, 0 where it is no scalar.
fn limit_of(message: &Elaborated<'_>, field: FieldId) -> i128
    requires small { limits message.now field < 2 ^ 100 }
    ensures { result ≡ pos (limits message.now field) }
{
    match message.scalar(field) {
        Some(scalar) => greatest(scalar),
        None => 0,
    }
}

/// Between which numbers a narrow expression lies.
pub fn interval(expr: &Expr, message: &Elaborated<'_>) -> Interval
    requires narrow { IsNarrow (limits message.now) (tree_of expr.now) }
    ensures value { result ≡ interval_of (limits message.now) (tree_of expr.now) }
    ensures short { IsShort result }
{
    match expr {
        Expr::Number(number) => Interval {
            low: *number,
            high: *number,
        },
        Expr::Field(field) => Interval {
            low: 0,
            high: limit_of(message, *field),
        },
        Expr::First(_) | Expr::Size(_) | Expr::Total => Interval {
            low: 0,
            high: 1 << 27,
        },
        Expr::Last(_) => Interval {
            low: -1,
            high: 1 << 27,
        },
        Expr::Neg(part) => {
            let inner = interval(part, message);
            negation(inner.low, inner.high)
        }
        Expr::Binary(operator, left, right) => {
            let left = interval(left, message);
            let right = interval(right, message);
            operated(*operator, left, right)
        }
        Expr::Truth(true) => Interval { low: 1, high: 1 },
        Expr::Truth(false) => Interval { low: 0, high: 0 },
        Expr::Not(_) => Interval { low: 0, high: 1 },
    }
}

// Between which numbers the result of an operator in a narrow expression lies.
fn operated(operator: Operator, left: Interval, right: Interval) -> Interval
    requires left { IsShort left }
    requires right { IsShort right }
    requires short { IsShort (interval_by operator left right) }
    requires divisor { IsDivisorIn operator right }
    ensures { result ≡ interval_by operator left right }
{
    match bounds(operator, left, right) {
        Some(interval) => interval,
        None => Interval { low: 0, high: 0 },
    }
}
